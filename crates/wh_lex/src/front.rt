ghost use Rattle.std.specs.Prelude.{◌≡◌, ◌∷◌, option_map, None};
ghost use Rattle.wh_grammar.specs.Token.{SignToken};
ghost use Rattle.wh_lex.specs.Front as spec;
ghost use Rattle.wh_lex.specs.Gives.{Gives};
ghost use Rattle.wh_lex.specs.View.{front_view, sign_of};

use crate::bytes::{begins_with, begins_word, is_blank, is_digit};
use crate::gaps::{comment_rest, line_rest};
use crate::quotes::{name_behind, text_behind};
use crate::words::{number, word};
use crate::{Kind, LexFault, Sign};
use std::alloc::Global;

/// What stands at the front of a text, a token, or none for a gap, and what follows it.
#[derive(Drop)]
pub struct Front<'a> {
    pub token: Option<Kind>,
    pub rest: &'a [u8],
}

/// The gap or the token at the front. A syntax error where neither stands there.
pub fn front_of(alloc: Global, text: &[u8]) -> Result<Front<'_>, LexFault>
    ensures { Gives front_view result (spec.front_of text.now) }
{
    match text {
        [] => Err(LexFault::SyntaxError),
        [first, rest @ ..] => front_behind(alloc, text, *first, rest),
    }
}

#[tactic(auto, unfolding(crate::specs::Front::front_behind))]
fn front_behind<'a>(
    alloc: Global,
    text: &'a [u8],
    first: u8,
    rest: &'a [u8],
) -> Result<Front<'a>, LexFault>
    requires { text.now ≡ first ∷ rest.now }
    ensures { Gives front_view result (spec.front_behind first rest.now) }
{
    if is_blank(first) {
        return Ok(gap(rest));
    }
    if begins_word(first) {
        return word(alloc, text);
    }
    if is_digit(first) {
        return number(text);
    }
    if first == b'\'' {
        return text_behind(alloc, rest);
    }
    if first == b'"' {
        return name_behind(alloc, rest);
    }
    if first == b'-' && begins_with(b'-', rest) {
        return Ok(gap(line_rest(&rest[1..])));
    }
    if first == b'/' && begins_with(b'*', rest) {
        return comment_behind(&rest[1..]);
    }
    sign_behind(first, rest)
}

fn gap(rest: &[u8]) -> Front<'_>
    ensures { front_view result ≡ spec.gap rest.now }
{
    Front { token: None, rest }
}

fn sign(sign: Sign, rest: &[u8]) -> Front<'_>
    ensures { front_view result ≡ spec.token (SignToken (sign_of sign)) rest.now }
{
    Front {
        token: Some(Kind::Sign(sign)),
        rest,
    }
}

fn comment_behind(text: &[u8]) -> Result<Front<'_>, LexFault>
    ensures { Gives front_view result (option_map spec.gap (spec.comment_rest text.now)) }
{
    match comment_rest(text) {
        Some(rest) => Ok(gap(rest)),
        None => Err(LexFault::SyntaxError),
    }
}

/// The sign at the front, the longer one where there are two.
#[tactic(auto, unfolding(crate::specs::Front::sign_front))]
fn sign_behind(first: u8, rest: &[u8]) -> Result<Front<'_>, LexFault>
    ensures { Gives front_view result (spec.sign_front first rest.now) }
{
    match rest {
        [] => one_sign(first, rest),
        [second, behind @ ..] => match Sign::of_two(first, *second) {
            Some(longer) => Ok(sign(longer, behind)),
            None => one_sign(first, rest),
        },
    }
}

fn one_sign(first: u8, rest: &[u8]) -> Result<Front<'_>, LexFault>
    ensures { Gives front_view result (spec.sign_if (spec.single first) rest.now None) }
{
    match Sign::of_one(first) {
        Some(found) => Ok(sign(found, rest)),
        None => Err(LexFault::SyntaxError),
    }
}
