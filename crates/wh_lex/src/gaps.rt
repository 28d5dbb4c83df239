ghost use Rattle.std.specs.Prelude.{◌≡◌, option_map};
ghost use Rattle.wh_lex.specs.Front as spec;

use crate::bytes::begins_with;

/// What is behind the end of the line, or of the text.
pub fn line_rest(text: &[u8]) -> &[u8]
    ensures { result.now ≡ spec.line_rest text.now }
{
    let mut rest = text;
    while let [byte, after @ ..] = rest {
        rest = after;
        if *byte == b'\n' {
            return rest;
        }
    }
    rest
}

/// What is behind the first star and slash.
pub fn comment_rest(text: &[u8]) -> Option<&[u8]>
    ensures { option_map (λ rest. rest.now) result ≡ spec.comment_rest text.now }
{
    let mut rest = text;
    while let [byte, after @ ..] = rest {
        if *byte == b'*' && begins_with(b'/', after) {
            return Some(&after[1..]);
        }
        rest = after;
    }
    None
}
