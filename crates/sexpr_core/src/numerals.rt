//! The numbers that digits spell.
ghost use Rattle.std.specs.Prelude.{◌≡◌, ◌+◌, ◌*◌, ◌-◌, ◌^◌, ◌≤◌, MatchOption};
ghost use Rattle.std.specs.List.{list_all};
ghost use Rattle.sexpr_core.specs.Lexicon.{is_digit};
ghost use Rattle.sexpr_core.specs.Numerals.{is_negative, is_number, number_from};

/// The number with a digit more, if it is below 2^128.
fn appended(number: u128, digit: u8) -> Option<u128>
    ensures { MatchOption result (2 ^ 128 ≤ number * 10 + (digit - 48)) (λ longer. longer ≡ number * 10 + (digit - 48)) }
{
    let more = u128::from(digit.saturating_sub(b'0'));
    match number.checked_mul(10) {
        Some(tens) => tens.checked_add(more),
        None => None,
    }
}

/// The number of the digits, if it is below 2^128.
pub fn number_below(digits: &[u8]) -> Option<u128>
    ensures { MatchOption result (2 ^ 128 ≤ number_from 0 digits.now) (λ number. number ≡ number_from 0 digits.now) }
{
    let mut number = 0;
    for digit in digits {
        match appended(number, *digit) {
            Some(longer) => number = longer,
            None => return None,
        }
    }
    Some(number)
}

fn are_digits(bytes: &[u8]) -> bool
    ensures { result ≡ list_all is_digit bytes.now }
{
    bytes.iter().all(|byte| byte.is_ascii_digit())
}

/// Whether the bytes are digits that make a numeral.
fn is_number(bytes: &[u8]) -> bool
    ensures { result ≡ is_number bytes.now }
{
    match bytes {
        [] => false,
        [first] => first.is_ascii_digit(),
        [first, ..] => *first != b'0' && are_digits(bytes),
    }
}

/// Whether the name is `-` and a numeral.
pub fn is_negative(name: &[u8]) -> bool
    ensures { result ≡ is_negative name.now }
{
    match name {
        [] => false,
        [sign, digits @ ..] => *sign == b'-' && is_number(digits),
    }
}
