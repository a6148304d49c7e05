ghost use Rattle.std.specs.Prelude.{◌∷◌, ◌≢◌, ◌&&◌, not, Bool, true, false, ◌++◌, ◌≡◌, ◌↔◌, ◌+◌, ◌<◌, ◌≤◌, ℕ, List, length, take, drop, IfOk, IfErr, MatchOption, IsTrue, codes, nat_eq};
ghost use Rattle.std.specs.List.{prefix_len, starts_with};
ghost use Rattle.std.specs.Char.{is_ascii_digit};
ghost use Rattle.c_lexer.specs.Bytes.{begins_with, is_blank, is_newline};
ghost use Rattle.c_lexer.specs.Found.{Tells, Tells_why};
ghost use Rattle.c_lexer.specs.Pieces.{EndsComment, NeverEnds, SkippedLine, Stands, begins_comment};

use crate::bytes::{indent_len, is_blank, is_word_start, line_len, number_len, word_len};
use crate::mark::{Mark, mark_at};
use crate::number::number_value;

/// What stands at a place of a text.
#[derive(Clone, Copy)]
pub enum FoundPiece {
    /// A blank, a comment or a skipped line, of so many bytes; whether a newline ended the line in
    /// it.
    Space { len: usize, line: bool },
    /// A word or a keyword.
    Word(usize),
    Number { len: usize, value: u64 },
    Sign(Mark),
}

/// Why nothing of a text stands at a place.
#[derive(Clone, Copy)]
pub enum PieceStop {
    Byte,
    Comment,
    Literal,
}

fn ends_comment(bytes: &[u8]) -> bool
    ensures { IsTrue result ↔ (take 2 bytes.now ≡ codes "*/") }
{
    matches!(bytes, [b'*', b'/', ..])
}

/// How many bytes stand before the first `*/`.
#[tactic(auto, using(crate::proofs::Slices::take_drop_all))]
fn comment_len(behind: &[u8]) -> Option<usize>
    ensures { MatchOption result (NeverEnds behind.now)
        (λ n. EndsComment behind.now n × ((at : ℕ) → at < n → ¬ EndsComment behind.now at)) }
{
    for at in 0..behind.len() {
        if ends_comment(&behind[at..]) {
            return Some(at);
        }
    }
    None
}

/// What stands behind the front, where the bytes begin with it.
fn behind<'a>(bytes: &'a [u8], front: &[u8]) -> Option<&'a [u8]>
    ensures { MatchOption result (starts_with nat_eq bytes.now front.now ≡ false)
        (λ rest. bytes.now ≡ front.now ++ rest.now) }
{
    if bytes.starts_with(front) {
        Some(&bytes[front.len()..])
    } else {
        None
    }
}

/// The space where a block comment began.
fn block_comment(body: &[u8]) -> Result<FoundPiece, PieceStop>
    ensures found { IfOk result (λ f. (fresh : Bool) (bytes : List ℕ)
        → bytes ≡ codes "/*" ++ body.now → Tells fresh bytes f) }
    ensures why { IfErr result (λ stop. (stop ≡ PieceStop.Comment) × NeverEnds body.now) }
{
    match comment_len(body) {
        Some(len) => Ok(FoundPiece::Space {
            len: len + 4,
            line: body[..len].contains(&b'\n'),
        }),
        None => Err(PieceStop::Comment),
    }
}

/// The space where a line comment began.
#[tactic(auto, using(crate::proofs::Spaces::line_comment_tells))]
fn line_comment(body: &[u8]) -> FoundPiece
    ensures { (fresh : Bool) (bytes : List ℕ) → bytes ≡ codes "//" ++ body.now
        → Tells fresh bytes result }
{
    FoundPiece::Space {
        len: line_len(body) + 2,
        line: false,
    }
}

/// The space where a line with `#` began, where it is one that is skipped.
fn skipped_line(after_mark: &[u8]) -> Option<FoundPiece>
    ensures { MatchOption result
        ((after : List ℕ) → drop (prefix_len (λ b. is_blank b && not (is_newline b)) after_mark.now)
        after_mark.now ≢ codes "include" ++ after)
        (λ f. Tells true (35 ∷ after_mark.now) f) }
{
    let indent = indent_len(after_mark);
    let after = behind(&after_mark[indent..], b"include")?;
    Some(FoundPiece::Space {
        len: indent + 8 + line_len(after),
        line: false,
    })
}

/// The number that begins here.
fn number(bytes: &[u8]) -> Result<FoundPiece, PieceStop>
    requires { begins_with is_ascii_digit bytes.now ≡ true }
    ensures found { (fresh : Bool) → IfOk result (Tells fresh bytes.now) }
    ensures why { (fresh : Bool) → IfErr result (Tells_why fresh bytes.now) }
{
    let len = number_len(bytes);
    match number_value(&bytes[..len]) {
        Some(value) => Ok(FoundPiece::Number { len, value }),
        None => Err(PieceStop::Literal),
    }
}

/// What stands at the front where no comment and no skipped line begins.
fn token_at(bytes: &[u8], fresh: bool) -> Result<FoundPiece, PieceStop>
    requires some { 0 < length bytes.now }
    requires no_comment { not (begins_comment bytes.now) ≡ true }
    requires no_line { (blanks body : List ℕ) → ¬ Stands fresh bytes.now (SkippedLine blanks body) }
    ensures found { IfOk result (Tells fresh bytes.now) }
    ensures why { IfErr result (Tells_why fresh bytes.now) }
{
    let first = bytes[0];
    if is_blank(first) {
        Ok(FoundPiece::Space {
            len: 1,
            line: first == b'\n',
        })
    } else if is_word_start(first) {
        Ok(FoundPiece::Word(word_len(bytes)))
    } else if first.is_ascii_digit() {
        number(bytes)
    } else {
        match mark_at(bytes) {
            Some(mark) => Ok(FoundPiece::Sign(mark)),
            None => Err(PieceStop::Byte),
        }
    }
}

/// The skipped line that begins here.
#[tactic(auto, using(crate::proofs::Spaces::no_line_in_line, crate::proofs::Spaces::no_line_without_mark, crate::proofs::Spaces::no_line_without_word))]
fn skipped_line_at(bytes: &[u8], fresh: bool) -> Option<FoundPiece>
    ensures { MatchOption result ((blanks body : List ℕ)
        → ¬ Stands fresh bytes.now (SkippedLine blanks body)) (Tells fresh bytes.now) }
{
    if !fresh {
        return None;
    }
    match behind(bytes, b"#") {
        Some(after_mark) => skipped_line(after_mark),
        None => None,
    }
}

/// What stands at the front of the bytes; `fresh` tells that no token stands since the last
/// newline.
pub fn piece_at(bytes: &[u8], fresh: bool) -> Result<FoundPiece, PieceStop>
    requires { 0 < length bytes.now }
    ensures found { IfOk result (Tells fresh bytes.now) }
    ensures why { IfErr result (Tells_why fresh bytes.now) }
{
    if let Some(body) = behind(bytes, b"/*") {
        return block_comment(body);
    }
    if let Some(body) = behind(bytes, b"//") {
        return Ok(line_comment(body));
    }
    match skipped_line_at(bytes, fresh) {
        Some(found) => Ok(found),
        None => token_at(bytes, fresh),
    }
}
