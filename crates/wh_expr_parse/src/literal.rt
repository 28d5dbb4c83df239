ghost use Rattle.std.specs.Prelude.{◌≡◌, ◌∷◌};
ghost use Rattle.wh_grammar.specs.Spelled.{tokens_of};
ghost use Rattle.wh_lex.specs.View.{token_of, IsWithin};
ghost use Rattle.wh_cursor.specs.Gives.{Reads};
ghost use Rattle.wh_cursor.specs.Steps.{tail};
ghost use Rattle.wh_expr_parse.specs.Alone as alone;
ghost use Rattle.wh_expr_parse.specs.Read as spec;

use std::alloc::Global;
use wh_ast::Expr;
use wh_cursor::{ParseFault, Words};
use wh_lex::{Kind, Token};
use wh_value::Value;

/// The number or the text that the tokens begin with.
#[tactic(auto, unfolding(crate::specs::Read::read_literal))]
pub fn literal_at(alloc: Global, tokens: &[Token]) -> Result<Expr, ParseFault>
    ensures { Reads
        (spec.read_literal (tokens_of tokens.now)) result (tail (tokens_of tokens.now)) }
{
    match tokens {
        [] => Err(ParseFault::SyntaxError),
        [first, behind @ ..] => literal_of(alloc, first.kind(), behind),
    }
}

#[tactic(auto, unfolding(crate::specs::Read::read_literal))]
fn literal_of(alloc: Global, kind: &Kind, behind: &[Token]) -> Result<Expr, ParseFault>
    requires { IsWithin (token_of kind.now) }
    ensures { Reads (spec.read_literal (token_of kind.now ∷ tokens_of behind.now)) result
        (tokens_of behind.now) }
{
    match kind {
        Kind::Number(number) => Ok(Expr::Const(Value::Number(*number as i64))),
        Kind::Text(text) => Ok(Expr::Const(Value::Text(text.copy(alloc)?))),
        _ => Err(ParseFault::SyntaxError),
    }
}

fn is_literal(kind: &Kind) -> bool
    ensures { result ≡ alone.is_literal (token_of kind.now) }
{
    match kind {
        Kind::Number(_) | Kind::Text(_) => true,
        _ => false,
    }
}

/// Whether the tokens begin with a number or a text that no token behind it goes on with.
#[tactic(auto, unfolding(crate::specs::Alone::stands_alone))]
pub fn stands_alone(tokens: &[Token]) -> bool
    ensures { result ≡ alone.stands_alone (tokens_of tokens.now) }
{
    match tokens {
        [] => false,
        [first, behind @ ..] => is_literal(first.kind()) && Words::new(behind).binds() == 0,
    }
}
