//! What may stand behind a query and its parts.

ghost use Rattle.std.specs.Prelude.{◌≡◌, [], ◌∷◌};
ghost use Rattle.wh_lex.specs.View.{token_of};
ghost use Rattle.wh_query_parse.specs.Follow as spec;
ghost use Rattle.wh_query_parse.specs.Read.{names_all, sees_join};

use wh_cursor::{TokenClass, Words};
use wh_lex::{Kind, Sign};

fn is_query_end(kind: &Kind) -> bool
    ensures { result ≡ spec.ends_query (token_of kind.now ∷ []) }
{
    match kind {
        Kind::Word(word) => word.as_bytes() == b"ORDER".as_slice(),
        Kind::Sign(Sign::RParen) => true,
        _ => false,
    }
}

/// Whether nothing, a `)` or ORDER comes next.
pub fn ends_query(words: &Words<'_>) -> bool
    ensures { result ≡ spec.ends_query words.now }
{
    match words.rest() {
        [] => true,
        [first, ..] => is_query_end(first.kind()),
    }
}

/// Whether a name may begin with that.
fn is_named(key: TokenClass) -> bool
    ensures { result ≡ spec.names_key key }
{
    matches!(key, TokenClass::Name | TokenClass::Sum | TokenClass::Count)
}

/// Whether neither AS nor a name comes next.
pub fn ends_alias(words: &Words<'_>) -> bool
    ensures { result ≡ spec.ends_alias words.now }
{
    if words.sees_word(b"AS") {
        return false;
    }
    !is_named(words.key())
}

/// Whether neither WHERE comes next, nor what goes on with an expression.
pub fn ends_filter(words: &Words<'_>) -> bool
    ensures { result ≡ spec.ends_filter words.now }
{
    words.binds() == 0 && !words.sees_word(b"WHERE")
}

/// Whether `. *` stands behind the next token.
pub fn names_all(words: &Words<'_>) -> bool
    ensures { result ≡ names_all words.now }
{
    let mut ahead = Words::new(words.rest());
    ahead.skip();
    ahead.eat(TokenClass::Dot) && ahead.sees(TokenClass::Star)
}

/// Whether a join comes next.
pub fn sees_join(words: &Words<'_>) -> bool
    ensures { result ≡ sees_join words.now }
{
    words.sees_word(b"INNER") || words.sees_word(b"JOIN")
}
