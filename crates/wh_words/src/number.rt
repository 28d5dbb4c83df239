ghost use Rattle.std.specs.Prelude.{◌≡◌, ◌≤◌, option_map, IfSome};
ghost use Rattle.wh_words.specs.Number.{number_of, value_after, given_number};

/// The number of a value that may be missing, from the least to the most.
pub(crate) fn number_in(given: Option<&str>, least: u32, most: u32) -> Option<u32>
    ensures number { result ≡ given_number least most (option_map (λ s. s.now) given.entry) }
    ensures range { IfSome result (λ number. (least ≤ number) × (number ≤ most)) }
{
    let number = number(given?)?;
    if number < least as u64 || number > most as u64 {
        return None;
    }
    Some(number as u32)
}

// The number that a text writes in at most ten digits, without a zero in front.
fn number(text: &str) -> Option<u64>
    ensures { result ≡ number_of text.now }
{
    match text.as_bytes() {
        [] => None,
        [b'0', _, ..] => None,
        digits => value(digits),
    }
}

fn value(digits: &[u8]) -> Option<u64>
    ensures { result ≡ value_after 0 digits.now }
{
    let mut value = 0;
    for digit in digits {
        if !digit.is_ascii_digit() || value >= 1_000_000_000 {
            return None;
        }
        value = value * 10 + (*digit - b'0') as u64;
    }
    Some(value)
}
