ghost use Rattle.std.specs.Prelude.{◌≡◌, ◌<◌, length, true};
ghost use Rattle.wh_grammar.specs.Bytes as byte_class;
ghost use Rattle.wh_grammar.specs.Lexing.{begins_with, is_byte};

/// A space, a tab, CR or LF.
pub fn is_blank(byte: u8) -> bool
    ensures { result ≡ byte_class.is_blank byte }
{
    byte == b' ' || byte == b'\t' || byte == b'\r' || byte == b'\n'
}

pub fn is_digit(byte: u8) -> bool
    ensures { result ≡ byte_class.is_digit byte }
{
    byte >= b'0' && byte <= b'9'
}

/// A letter of ASCII or `_`.
pub fn begins_word(byte: u8) -> bool
    ensures { result ≡ byte_class.begins_word byte }
{
    byte >= b'A' && byte <= b'Z' || byte >= b'a' && byte <= b'z' || byte == b'_'
}

/// What a word goes on with: a letter of ASCII, a digit, `_` or `$`.
pub fn is_word_byte(byte: u8) -> bool
    ensures { result ≡ byte_class.is_word_byte byte }
{
    begins_word(byte) || is_digit(byte) || byte == b'$'
}

pub fn upper(byte: u8) -> u8
    ensures { result ≡ byte_class.upper byte }
{
    if byte >= b'a' && byte <= b'z' {
        byte - 32
    } else {
        byte
    }
}

/// Whether the bytes begin with this one.
pub fn begins_with(byte: u8, bytes: &[u8]) -> bool
    ensures value { result ≡ begins_with (is_byte byte) bytes.now }
    ensures some { result ≡ true → 0 < length bytes.now }
{
    match bytes {
        [first, ..] => byte == *first,
        [] => false,
    }
}
