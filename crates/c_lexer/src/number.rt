ghost use Rattle.std.specs.Prelude.{◌≡◌, ◌≤◌, ◌^◌, ◌-◌, ◌*◌, ◌+◌, min, pos, fold, Some, IsTrue, if◌then◌else◌, nat_le};
ghost use Rattle.std.specs.List.{list_all};
ghost use Rattle.std.specs.Option.{option_map};
ghost use Rattle.std.specs.Char.{is_ascii_digit, is_ascii_hexdigit};
ghost use Rattle.c_lexer.specs.Kinds.{is_decimal, hexadecimal_digits, decimal_value, hexadecimal_value, hex_digit_value, number_of, small_number};

fn is_decimal(word: &[u8]) -> bool
    ensures { result ≡ is_decimal word.now }
{
    match word {
        [] => false,
        [digit] => digit.is_ascii_digit(),
        [digit, digits @ ..] => digit.is_ascii_digit() && *digit != b'0' && are_digits(digits),
    }
}

fn are_digits(bytes: &[u8]) -> bool
    ensures { result ≡ list_all is_ascii_digit bytes.now }
{
    bytes.iter().all(|byte| byte.is_ascii_digit())
}

fn are_hex_digits(bytes: &[u8]) -> bool
    ensures { result ≡ list_all is_ascii_hexdigit bytes.now }
{
    bytes.iter().all(|byte| byte.is_ascii_hexdigit())
}

/// The hexadecimal digits behind `0x` or `0X`.
fn hexadecimal_digits(word: &[u8]) -> Option<&[u8]>
    ensures { option_map (λ digits. digits.now) result ≡ hexadecimal_digits word.now }
{
    match word {
        [zero, x, digits @ ..] => {
            if *zero == b'0'
                && (*x == b'x' || *x == b'X')
                && !digits.is_empty()
                && are_hex_digits(digits)
            {
                Some(digits)
            } else {
                None
            }
        }
        _ => None,
    }
}

fn hex_digit_value(digit: u8) -> u8
    ensures { result ≡ hex_digit_value digit }
{
    if digit <= b'9' {
        digit.saturating_sub(48)
    } else if digit <= b'F' {
        digit.saturating_sub(55)
    } else {
        digit.saturating_sub(87)
    }
}

/// The number that decimal digits spell, or the greatest of 64 bits where it is more.
fn decimal_value(digits: &[u8]) -> u64
    ensures { result ≡ min (decimal_value digits.now) (2 ^ 64 - 1) }
{
    let mut value = 0u64;
    for digit in digits {
        value = value
            .saturating_mul(10)
            .saturating_add(u64::from(digit.saturating_sub(48)));
    }
    value
}

/// The number that hexadecimal digits spell, or the greatest of 64 bits where it is more.
fn hexadecimal_value(digits: &[u8]) -> u64
    ensures { result ≡ min (hexadecimal_value digits.now) (2 ^ 64 - 1) }
{
    let mut value = 0u64;
    for digit in digits {
        value = value
            .saturating_mul(16)
            .saturating_add(u64::from(hex_digit_value(*digit)));
    }
    value
}

/// The greatest number of a text.
const GREATEST: u64 = 9_223_372_036_854_775_807;

/// The number that the bytes spell, where it is one of the language.
pub fn number_value(word: &[u8]) -> Option<u64>
    ensures { result ≡ small_number word.now }
{
    let value = if is_decimal(word) {
        decimal_value(word)
    } else {
        hexadecimal_value(hexadecimal_digits(word)?)
    };
    if value <= GREATEST { Some(value) } else { None }
}
