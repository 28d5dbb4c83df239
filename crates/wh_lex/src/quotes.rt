ghost use Rattle.std.specs.Prelude.{◌≡◌, ◌+◌, ◌≤◌, length, option_map, IfSome};
ghost use Rattle.std.specs.List.{list_all};
ghost use Rattle.wh_grammar.specs.Lexing as lexing;
ghost use Rattle.wh_lex.specs.Front as spec;
ghost use Rattle.wh_lex.specs.Gives.{Gives};
ghost use Rattle.wh_lex.specs.View.{front_view};

use crate::bytes::begins_with;
use crate::front::Front;
use crate::{Kind, LexFault};
use std::alloc::Global;
use wh_value::Text;

/// The text behind its opening quote, and what follows it.
pub fn text_behind(alloc: Global, bytes: &[u8]) -> Result<Front<'_>, LexFault>
    ensures { Gives front_view result (spec.text_front (spec.quoted_of 39 bytes.now)) }
{
    let (inside, rest) = quoted(alloc, b'\'', bytes)?;
    if !is_plain(&inside) {
        return Err(LexFault::SyntaxError);
    }
    let text = made_text(alloc, &inside)?;
    Ok(Front {
        token: Some(Kind::Text(text)),
        rest,
    })
}

/// The quoted name behind its opening quote, and what follows it.
pub fn name_behind(alloc: Global, bytes: &[u8]) -> Result<Front<'_>, LexFault>
    ensures { Gives front_view result (spec.name_front (spec.quoted_of 34 bytes.now)) }
{
    let (inside, rest) = quoted(alloc, b'"', bytes)?;
    if inside.is_empty() {
        return Err(LexFault::SyntaxError);
    }
    let name = made_text(alloc, &inside)?;
    Ok(Front {
        token: Some(Kind::Quoted(name)),
        rest,
    })
}

/// What stands up to a quote that isn't doubled, and what is behind that.
fn quoted(alloc: Global, quote: u8, bytes: &[u8]) -> Result<(Vec<u8>, &[u8]), LexFault>
    ensures { Gives (λ p. (p.0.items, p.1.now)) result (spec.quoted_of quote bytes.now) }
{
    let mut inside = Vec::new(alloc);
    let mut rest = bytes;
    'bytes: loop {
        let Some((byte, after)) = inside_first(quote, rest) else {
            return Err(LexFault::SyntaxError);
        };
        let Some(byte) = byte else {
            return Ok((inside, after));
        };
        inside.push(byte)?;
        rest = after;
    }
}

/// The first byte inside quotes, or none for the quote at the end, and what follows it.
fn inside_first(quote: u8, bytes: &[u8]) -> Option<(Option<u8>, &[u8])>
    ensures is { option_map (λ p. (p.0, p.1.now)) result ≡ spec.inside_first quote bytes.now }
    ensures shorter { IfSome result (λ p. length p.1.now + 1 ≤ length bytes.now) }
{
    match bytes {
        [] => None,
        [first, rest @ ..] => inside_behind(quote, *first, rest),
    }
}

fn inside_behind(quote: u8, first: u8, rest: &[u8]) -> Option<(Option<u8>, &[u8])>
    ensures is { option_map (λ p. (p.0, p.1.now)) result ≡ spec.inside_behind quote first rest.now }
    ensures within { IfSome result (λ p. length p.1.now ≤ length rest.now) }
{
    if first != quote {
        return Some((Some(first), rest));
    }
    if begins_with(quote, rest) {
        return Some((Some(quote), &rest[1..]));
    }
    Some((None, rest))
}

/// Whether no byte is a backslash.
fn is_plain(bytes: &[u8]) -> bool
    ensures { result ≡ list_all lexing.is_plain bytes.now }
{
    bytes.iter().all(|byte| *byte != b'\\')
}

/// The text of the bytes, where they are one.
pub fn made_text(alloc: Global, bytes: &[u8]) -> Result<Text, LexFault>
    ensures { Gives (λ text. text) result (spec.text_of bytes.now) }
{
    match Text::from_bytes(alloc, bytes) {
        Some(made) => Ok(made?),
        None => Err(LexFault::SyntaxError),
    }
}
