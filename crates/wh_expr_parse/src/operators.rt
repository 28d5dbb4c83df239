ghost use Rattle.std.specs.Prelude.{◌≡◌};
ghost use Rattle.wh_cursor.specs.Gives.{Reads};
ghost use Rattle.wh_expr_parse.specs.Operators as spec;
ghost use Rattle.wh_expr_parse.specs.Read as read;

use crate::tokens::Tokens;
use wh_ast::Operator;
use wh_cursor::{ParseFault, TokenClass, binds};

fn operator(key: TokenClass) -> Option<Operator>
    ensures { result ≡ spec.operator key }
{
    match key {
        TokenClass::Or => Some(Operator::Or),
        TokenClass::And => Some(Operator::And),
        TokenClass::Plus => Some(Operator::Add),
        TokenClass::Minus => Some(Operator::Sub),
        TokenClass::Star => Some(Operator::Mul),
        _ => None,
    }
}

/// The operator of a level.
#[tactic(auto, unfolding(crate::specs::Operators::joins))]
fn joins(level: u8, key: TokenClass) -> Option<Operator>
    ensures { result ≡ spec.joins level key }
{
    if binds(key) == level {
        operator(key)
    } else {
        None
    }
}

/// Takes the operator of a level, if it comes next. It counts.
#[tactic(auto, unfolding(crate::specs::Read::read_operator))]
pub fn read_operator(level: u8, tokens: &mut Tokens<'_>) -> Result<Option<Operator>, ParseFault>
    ensures { Reads (read.read_operator level tokens.old) result tokens.new }
{
    let Some(operator) = joins(level, tokens.key()) else {
        return Ok(None);
    };
    tokens.skip();
    tokens.spend()?;
    Ok(Some(operator))
}
