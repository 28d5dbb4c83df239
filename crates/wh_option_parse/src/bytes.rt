//! Bytes of the texts of options.
ghost use Rattle.std.specs.Prelude.{◌≡◌, ◌≤◌, ◌<◌, map, length, true, IfOk};
ghost use Rattle.std.specs.List.{list_all, prefix_len};
ghost use Rattle.wh_grammar.specs.Bytes as byte_class;

use std::alloc::{AllocError, Global};

/// A space, a tab, CR or LF.
fn is_blank(byte: u8) -> bool
    ensures { result ≡ byte_class.is_blank byte }
{
    byte == b' ' || byte == b'\t' || byte == b'\r' || byte == b'\n'
}

fn is_digit(byte: u8) -> bool
    ensures { result ≡ byte_class.is_digit byte }
{
    byte >= b'0' && byte <= b'9'
}

fn upper(byte: u8) -> u8
    ensures { result ≡ byte_class.upper byte }
{
    if byte >= b'a' && byte <= b'z' {
        byte - 32
    } else {
        byte
    }
}

/// How many digits stand at the front.
pub fn digit_count(text: &[u8]) -> usize
    ensures is { result ≡ prefix_len byte_class.is_digit text.now }
    ensures within { result ≤ length text.now }
{
    for (i, byte) in text.iter().enumerate() {
        if !is_digit(*byte) {
            return i;
        }
    }
    text.len()
}

/// How many blanks stand at the front.
pub fn blank_count(text: &[u8]) -> usize
    ensures is { result ≡ prefix_len byte_class.is_blank text.now }
    ensures within { result ≤ length text.now }
{
    for (i, byte) in text.iter().enumerate() {
        if !is_blank(*byte) {
            return i;
        }
    }
    text.len()
}

/// The number that at most 9 digits spell.
pub fn number_of(digits: &[u8]) -> u64
    requires few { length digits.now ≤ 9 }
    requires digits { list_all byte_class.is_digit digits.now ≡ true }
    ensures is { result ≡ byte_class.number_behind 0 digits.now }
    ensures small { result < 1000000000 }
{
    let mut number: u64 = 0;
    for byte in digits {
        number = number * 10 + u64::from(*byte - b'0');
    }
    number
}

/// The bytes in upper case.
pub fn upper_case(alloc: Global, text: &[u8]) -> Result<Vec<u8>, AllocError>
    ensures { IfOk result (λ made. made.items ≡ map byte_class.upper text.now) }
{
    text.iter().map(|byte| upper(*byte)).collect(alloc)
}
