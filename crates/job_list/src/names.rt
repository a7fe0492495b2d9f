//! Names of files in a line.

ghost use Rattle.std.specs.Prelude.{◌≡◌, ◌≢◌, ◌∷◌, ◌++◌, IfOk, MatchBool, MatchOption, length, string_bytes};
ghost use Rattle.std.specs.List.{All};
ghost use Rattle.job_list.specs.Jobs.{IsName, is_blank, IsUnbroken};

use std::alloc::{AllocError, Global};

/// What stands before the first byte of this value and what follows it.
pub(crate) fn split_at_byte(bytes: &[u8], byte: u8) -> Option<(&[u8], &[u8])>
    ensures { MatchOption result (All (λ b. b ≢ byte) bytes.now)
        (λ p. (bytes.now ≡ p.0.now ++ byte ∷ p.1.now) × All (λ b. b ≢ byte) p.0.now) }
{
    for i in 0..bytes.len() {
        if bytes[i] == byte {
            return Some((&bytes[..i], &bytes[i + 1..]));
        }
    }
    None
}

/// Whether a byte is a blank, a tab, a carriage return or a line feed.
fn is_blank(byte: u8) -> bool
    ensures { result ≡ is_blank byte }
{
    byte == b' ' || (byte == b'\t' || (byte == b'\r' || byte == b'\n'))
}

/// Whether no byte is a blank of any kind.
fn is_unbroken(bytes: &[u8]) -> bool
    ensures { MatchBool result (IsUnbroken bytes.now) (¬ (IsUnbroken bytes.now)) }
{
    for i in 0..bytes.len() {
        if is_blank(bytes[i]) {
            return false;
        }
    }
    true
}

/// Whether the bytes are a name.
pub(crate) fn is_name(bytes: &[u8]) -> bool
    ensures { MatchBool result (IsName bytes.now) (¬ (IsName bytes.now)) }
{
    if bytes.is_empty() || bytes.len() > 4095 {
        return false;
    }
    if str::from_utf8(bytes).is_err() {
        return false;
    }
    is_unbroken(bytes)
}

/// A name as a text.
pub(crate) fn owned(alloc: Global, name: &[u8]) -> Result<String, AllocError>
    requires { IsName name.now }
    ensures { IfOk result (λ s. string_bytes s ≡ name.now) }
{
    match str::from_utf8(name) {
        Ok(text) => String::from_str(alloc, text),
        Err(_) => unreachable!(),
    }
}
