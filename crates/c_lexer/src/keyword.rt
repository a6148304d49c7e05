ghost use Rattle.std.specs.Prelude.{◌≡◌, find};
ghost use Rattle.std.specs.Str.{bytes_eq};
ghost use Rattle.c_lexer.specs.Spellings.{keyword_bytes};

/// A keyword of C11 (6.4.1). Those of the profile stand first.
#[derive(Clone, Copy, PartialEq, Eq)]
pub enum Keyword {
    Int,
    Void,
    If,
    Else,
    While,
    Do,
    For,
    Break,
    Continue,
    Return,
    Extern,
    Auto,
    Case,
    Char,
    Const,
    Default,
    Double,
    Enum,
    Float,
    Goto,
    Inline,
    Long,
    Register,
    Restrict,
    Short,
    Signed,
    Sizeof,
    Static,
    Struct,
    Switch,
    Typedef,
    Union,
    Unsigned,
    Volatile,
    Alignas,
    Alignof,
    Atomic,
    Bool,
    Complex,
    Generic,
    Imaginary,
    Noreturn,
    Static_assert,
    Thread_local,
}

/// All keywords.
const KEYWORDS: [Keyword; 44] = [
    Keyword::Int,
    Keyword::Void,
    Keyword::If,
    Keyword::Else,
    Keyword::While,
    Keyword::Do,
    Keyword::For,
    Keyword::Break,
    Keyword::Continue,
    Keyword::Return,
    Keyword::Extern,
    Keyword::Auto,
    Keyword::Case,
    Keyword::Char,
    Keyword::Const,
    Keyword::Default,
    Keyword::Double,
    Keyword::Enum,
    Keyword::Float,
    Keyword::Goto,
    Keyword::Inline,
    Keyword::Long,
    Keyword::Register,
    Keyword::Restrict,
    Keyword::Short,
    Keyword::Signed,
    Keyword::Sizeof,
    Keyword::Static,
    Keyword::Struct,
    Keyword::Switch,
    Keyword::Typedef,
    Keyword::Union,
    Keyword::Unsigned,
    Keyword::Volatile,
    Keyword::Alignas,
    Keyword::Alignof,
    Keyword::Atomic,
    Keyword::Bool,
    Keyword::Complex,
    Keyword::Generic,
    Keyword::Imaginary,
    Keyword::Noreturn,
    Keyword::Static_assert,
    Keyword::Thread_local,
];

impl Keyword {
    /// How the keyword is spelled.
    pub fn bytes(self) -> &'static [u8]
        ensures { result.now ≡ keyword_bytes self }
    {
        match self {
            Keyword::Int => b"int",
            Keyword::Void => b"void",
            Keyword::If => b"if",
            Keyword::Else => b"else",
            Keyword::While => b"while",
            Keyword::Do => b"do",
            Keyword::For => b"for",
            Keyword::Break => b"break",
            Keyword::Continue => b"continue",
            Keyword::Return => b"return",
            Keyword::Extern => b"extern",
            Keyword::Auto => b"auto",
            Keyword::Case => b"case",
            Keyword::Char => b"char",
            Keyword::Const => b"const",
            Keyword::Default => b"default",
            Keyword::Double => b"double",
            Keyword::Enum => b"enum",
            Keyword::Float => b"float",
            Keyword::Goto => b"goto",
            Keyword::Inline => b"inline",
            Keyword::Long => b"long",
            Keyword::Register => b"register",
            Keyword::Restrict => b"restrict",
            Keyword::Short => b"short",
            Keyword::Signed => b"signed",
            Keyword::Sizeof => b"sizeof",
            Keyword::Static => b"static",
            Keyword::Struct => b"struct",
            Keyword::Switch => b"switch",
            Keyword::Typedef => b"typedef",
            Keyword::Union => b"union",
            Keyword::Unsigned => b"unsigned",
            Keyword::Volatile => b"volatile",
            Keyword::Alignas => b"_Alignas",
            Keyword::Alignof => b"_Alignof",
            Keyword::Atomic => b"_Atomic",
            Keyword::Bool => b"_Bool",
            Keyword::Complex => b"_Complex",
            Keyword::Generic => b"_Generic",
            Keyword::Imaginary => b"_Imaginary",
            Keyword::Noreturn => b"_Noreturn",
            Keyword::Static_assert => b"_Static_assert",
            Keyword::Thread_local => b"_Thread_local",
        }
    }
}

/// The keyword that is spelled so.
pub(crate) fn keyword_of(word: &[u8]) -> Option<Keyword>
    ensures { result ≡ find (λ k. bytes_eq (keyword_bytes k) word.now) KEYWORDS }
{
    KEYWORDS
        .iter()
        .copied()
        .find(|keyword| keyword.bytes() == word)
}
