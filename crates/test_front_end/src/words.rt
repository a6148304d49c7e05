//! Names and operators.
use row_texts::Told;
use syntax_tree::{Name, Op, Sign};

/// A word, a name and its place.
pub(crate) fn show_named(out: &mut Told, word: &str, name: &Name, at: u32) {
    out.word(word);
    out.letters(name.as_slice());
    out.place("@", at);
}

pub(crate) fn op_text(op: Op) -> &'static str {
    match op {
        Op::Add => "+",
        Op::Sub => "-",
        Op::Mul => "*",
        Op::Div => "/",
        Op::Rem => "%",
        Op::Lt => "<",
        Op::Le => "<=",
        Op::Gt => ">",
        Op::Ge => ">=",
        Op::Eq => "==",
        Op::Ne => "!=",
        Op::And => "&&",
        Op::Or => "||",
    }
}

pub(crate) fn sign_text(sign: Sign) -> &'static str {
    match sign {
        Sign::Plus => "+",
        Sign::Minus => "-",
        Sign::Not => "!",
    }
}
