ghost use Rattle.std.specs.Prelude.{◌≡◌, ◌≤◌, ◌&&◌, not, length};
ghost use Rattle.std.specs.List.{prefix_len};
ghost use Rattle.c_lexer.specs.Bytes.{is_blank, is_newline, is_word_start, is_word_byte, is_number_byte};

pub fn is_blank(byte: u8) -> bool
    ensures { result ≡ is_blank byte }
{
    matches!(byte, b' ' | b'\t' | b'\n' | 11 | 12 | b'\r')
}

pub fn is_word_start(byte: u8) -> bool
    ensures { result ≡ is_word_start byte }
{
    byte.is_ascii_alphabetic() || byte == b'_'
}

fn is_word_byte(byte: u8) -> bool
    ensures { result ≡ is_word_byte byte }
{
    byte.is_ascii_alphanumeric() || byte == b'_'
}

fn is_number_byte(byte: u8) -> bool
    ensures { result ≡ is_number_byte byte }
{
    is_word_byte(byte) || byte == b'.'
}

/// How many bytes at the front may go on a word.
#[tactic(auto, using(crate::proofs::Slices::runs))]
pub fn word_len(bytes: &[u8]) -> usize
    ensures run { result ≡ prefix_len is_word_byte bytes.now }
    ensures within { result ≤ length bytes.now }
{
    bytes.iter().take_while(|byte| is_word_byte(**byte)).count()
}

/// How many bytes at the front may go on a number.
#[tactic(auto, using(crate::proofs::Slices::runs))]
pub fn number_len(bytes: &[u8]) -> usize
    ensures run { result ≡ prefix_len is_number_byte bytes.now }
    ensures within { result ≤ length bytes.now }
{
    bytes
        .iter()
        .take_while(|byte| is_number_byte(**byte))
        .count()
}

/// How many bytes the line still has.
#[tactic(auto, using(crate::proofs::Slices::runs))]
pub fn line_len(bytes: &[u8]) -> usize
    ensures run { result ≡ prefix_len (λ b. not (is_newline b)) bytes.now }
    ensures within { result ≤ length bytes.now }
{
    bytes.iter().take_while(|byte| **byte != b'\n').count()
}

/// How many blanks of the line stand at the front.
#[tactic(auto, using(crate::proofs::Slices::runs))]
pub fn indent_len(bytes: &[u8]) -> usize
    ensures run { result ≡ prefix_len (λ b. is_blank b && not (is_newline b)) bytes.now }
    ensures within { result ≤ length bytes.now }
{
    bytes
        .iter()
        .take_while(|byte| is_blank(**byte) && **byte != b'\n')
        .count()
}
