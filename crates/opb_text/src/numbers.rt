//! Numbers of any length: past the greatest size that a constraint may have they are told as the least one above it.

ghost use Rattle.std.specs.Prelude.{◌≡◌, ◌+◌, ◌*◌, ◌^◌, ◌≤◌, ◌<◌, pos, neg_ℤ, option_map, IfSome};
ghost use Rattle.log_theory.specs.Words.{number_of};
ghost use Rattle.log_theory.specs.OpbReading.{signed_number};
ghost use Rattle.opb_text.specs.Kinds.{capped, capped_number};

/// The greatest size that a number of a constraint may have.
pub const MOST: u128 = 1 << 125;

/// A number, after a digit was written behind it.
fn with_digit(value: u128, digit: u128) -> u128
    requires value { value ≤ 2 ^ 125 + 1 }
    requires digit { digit < 10 }
    ensures { result ≡ capped (value * 10 + digit) }
{
    if value > (MOST + 1) / 10 {
        MOST + 1
    } else {
        (value * 10 + digit).min(MOST + 1)
    }
}

/// The number that a word of digits writes; leading zeros count for nothing.
pub fn number_in(word: &[u8]) -> Option<u128>
    ensures exact { result ≡ option_map capped (number_of word.now) }
    ensures small { IfSome result (λ n. n ≤ 2 ^ 125 + 1) }
{
    if word.is_empty() {
        return None;
    }
    let mut value: u128 = 0;
    for b in word {
        if !b.is_ascii_digit() {
            return None;
        }
        value = with_digit(value, u128::from(*b - b'0'));
    }
    Some(value)
}

/// The number of the digits.
fn positive(number: Option<u128>) -> Option<i128>
    requires { IfSome number (λ n. n ≤ 2 ^ 125 + 1) }
    ensures { result ≡ option_map pos number }
{
    match number {
        Some(n) => Some(n as i128),
        None => None,
    }
}

/// The negation of the number of the digits.
fn negated(number: Option<u128>) -> Option<i128>
    requires { IfSome number (λ n. n ≤ 2 ^ 125 + 1) }
    ensures { result ≡ option_map (λ n. neg_ℤ (pos n)) number }
{
    match number {
        Some(n) => Some(-(n as i128)),
        None => None,
    }
}

/// The number that digits write, after a sign or none.
pub fn signed_number_in(word: &[u8]) -> Option<i128>
    ensures { result ≡ option_map capped_number (signed_number word.now) }
{
    match word {
        [b'+', digits @ ..] => positive(number_in(digits)),
        [b'-', digits @ ..] => negated(number_in(digits)),
        _ => positive(number_in(word)),
    }
}
