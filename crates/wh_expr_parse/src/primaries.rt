//! Constants, columns, parentheses and calls.

ghost use Rattle.std.specs.Prelude.{◌≡◌, [], true, false, Some};
ghost use Rattle.wh_cursor.specs.Gives.{Reads};
ghost use Rattle.wh_expr_parse.specs.Read as spec;
ghost use Rattle.wh_expr_parse.specs.Nests.{Nests};
ghost use Rattle.wh_expr_parse.specs.State as state;

use crate::grammar::{Grammar, Level};
use crate::tokens::Tokens;
use sqlite_items::Boxed;
use std::alloc::Global;
use wh_ast::Expr;
use wh_cursor::{ParseFault, TokenClass};
use wh_value::{Text, Value};

#[tactic(auto, unfolding(crate::specs::Read::column))]
fn column(alloc: Global, tokens: &mut Tokens<'_>) -> Result<Boxed<Expr>, ParseFault>
    ensures { Reads (spec.column tokens.old) result tokens.new }
{
    let first = tokens.name(alloc)?;
    let dotted = tokens.eat(TokenClass::Dot);
    column_of(alloc, tokens, first, dotted)
}

/// A column by its first name; with a dot behind that it is an entry's.
#[tactic(auto, unfolding(crate::specs::Read::column_of))]
fn column_of(
    alloc: Global,
    tokens: &mut Tokens<'_>,
    first: Text,
    dotted: bool,
) -> Result<Boxed<Expr>, ParseFault>
    ensures { Reads (spec.column_of first dotted tokens.old) result tokens.new }
{
    if dotted {
        let column = tokens.name(alloc)?;
        Ok(Boxed::new(alloc, Expr::Column(Some(first), column))?)
    } else {
        Ok(Boxed::new(alloc, Expr::Column(None, first))?)
    }
}

/// The star of `COUNT ( * )`.
#[tactic(auto, unfolding(crate::specs::Read::rows))]
pub fn rows(alloc: Global, tokens: &mut Tokens<'_>) -> Result<Boxed<Expr>, ParseFault>
    ensures { Reads (spec.rows tokens.old) result tokens.new }
{
    tokens.skip();
    Ok(Boxed::new(alloc, Expr::CountRows)?)
}

fn constant(alloc: Global, tokens: &mut Tokens<'_>, value: Value) -> Result<Boxed<Expr>, ParseFault>
    ensures { Reads (Some (Expr.Const value, state.next tokens.old)) result tokens.new }
{
    tokens.skip();
    Ok(Boxed::new(alloc, Expr::Const(value))?)
}

impl<F: Fn(Global, &mut Tokens<'_>, usize, Level) -> Result<Boxed<Expr>, ParseFault>> Grammar<F> {
    #[tactic(auto, unfolding(crate::specs::Read::primary))]
    pub fn primary(&self, tokens: &mut Tokens<'_>) -> Result<Boxed<Expr>, ParseFault>
        requires { Nests self.now.depth (F.pre self.now.inner) (F.post self.now.inner) }
        ensures { Reads (spec.primary (spec.nested self.now.depth) tokens.old) result tokens.new }
    {
        match tokens.key() {
            TokenClass::LParen => {
                tokens.skip();
                self.parenthesized(tokens)
            }
            TokenClass::Number | TokenClass::Text => tokens.literal(self.alloc),
            TokenClass::True => constant(self.alloc, tokens, Value::Bool(true)),
            TokenClass::False => constant(self.alloc, tokens, Value::Bool(false)),
            TokenClass::Null => constant(self.alloc, tokens, Value::Null),
            TokenClass::Sum => self.sum_or_column(tokens),
            TokenClass::Count => self.count_or_column(tokens),
            TokenClass::Name => column(self.alloc, tokens),
            _ => Err(ParseFault::SyntaxError),
        }
    }

    /// Behind the `(`.
    #[tactic(auto, unfolding(crate::specs::Read::parenthesized))]
    fn parenthesized(&self, tokens: &mut Tokens<'_>) -> Result<Boxed<Expr>, ParseFault>
        requires { Nests self.now.depth (F.pre self.now.inner) (F.post self.now.inner) }
        ensures { Reads
            (spec.parenthesized (spec.nested self.now.depth) tokens.old) result tokens.new }
    {
        let x = self.inner(tokens, Level::Whole)?;
        tokens.expect(TokenClass::RParen)?;
        Ok(x)
    }

    fn sum_or_column(&self, tokens: &mut Tokens<'_>) -> Result<Boxed<Expr>, ParseFault>
        requires { Nests self.now.depth (F.pre self.now.inner) (F.post self.now.inner) }
        ensures { Reads (spec.call_or_column (spec.nested self.now.depth)
            (spec.sum_call (spec.nested self.now.depth)) tokens.old) result tokens.new }
    {
        if tokens.sees_behind(TokenClass::LParen) {
            tokens.skip();
            self.sum_call(tokens)
        } else {
            column(self.alloc, tokens)
        }
    }

    /// Behind `SUM`.
    #[tactic(auto, unfolding(crate::specs::Read::sum_call))]
    fn sum_call(&self, tokens: &mut Tokens<'_>) -> Result<Boxed<Expr>, ParseFault>
        requires { Nests self.now.depth (F.pre self.now.inner) (F.post self.now.inner) }
        ensures { Reads (spec.sum_call (spec.nested self.now.depth) tokens.old) result tokens.new }
    {
        tokens.skip();
        let x = self.parenthesized(tokens)?;
        Ok(Boxed::new(self.alloc, Expr::Sum(x))?)
    }

    fn count_or_column(&self, tokens: &mut Tokens<'_>) -> Result<Boxed<Expr>, ParseFault>
        requires { Nests self.now.depth (F.pre self.now.inner) (F.post self.now.inner) }
        ensures { Reads (spec.call_or_column (spec.nested self.now.depth)
            (spec.count_call (spec.nested self.now.depth)) tokens.old) result tokens.new }
    {
        if tokens.sees_behind(TokenClass::LParen) {
            tokens.skip();
            self.count_call(tokens)
        } else {
            column(self.alloc, tokens)
        }
    }

    /// Behind `COUNT`.
    #[tactic(auto, unfolding(crate::specs::Read::count_call))]
    fn count_call(&self, tokens: &mut Tokens<'_>) -> Result<Boxed<Expr>, ParseFault>
        requires { Nests self.now.depth (F.pre self.now.inner) (F.post self.now.inner) }
        ensures { Reads
            (spec.count_call (spec.nested self.now.depth) tokens.old) result tokens.new }
    {
        tokens.skip();
        let star = tokens.sees(TokenClass::Star);
        self.count_of(tokens, star)
    }

    /// Behind `COUNT (`, and whether a star stands there.
    #[tactic(auto, unfolding(crate::specs::Read::count_by))]
    fn count_of(&self, tokens: &mut Tokens<'_>, star: bool) -> Result<Boxed<Expr>, ParseFault>
        requires { Nests self.now.depth (F.pre self.now.inner) (F.post self.now.inner) }
        ensures { Reads
            (spec.count_by (spec.nested self.now.depth) star tokens.old) result tokens.new }
    {
        if star {
            let x = self.inner(tokens, Level::Rows)?;
            tokens.expect(TokenClass::RParen)?;
            return Ok(x);
        }
        let x = self.parenthesized(tokens)?;
        Ok(Boxed::new(self.alloc, Expr::Count(x))?)
    }
}
