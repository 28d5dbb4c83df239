//! What may follow a sum: a comparison, IS, IN or BETWEEN.

ghost use Rattle.std.specs.Prelude.{◌≡◌, [], true, false};
ghost use Rattle.wh_cursor.specs.Gives.{Reads};
ghost use Rattle.wh_cursor.specs.Keys.{key_of};
ghost use Rattle.wh_expr_parse.specs.Read as spec;
ghost use Rattle.wh_expr_parse.specs.Nests.{Nests};

use crate::grammar::{Grammar, Level};
use crate::tokens::Tokens;
use sqlite_items::{Boxed, Items};
use std::alloc::Global;
use wh_ast::{Expr, Operator};
use wh_cursor::{ParseFault, TokenClass};
use wh_value::Comparison;

impl<F: Fn(Global, &mut Tokens<'_>, usize, Level) -> Result<Boxed<Expr>, ParseFault>> Grammar<F> {
    #[tactic(auto, unfolding(crate::specs::Read::predicate))]
    pub fn predicate(&self, tokens: &mut Tokens<'_>) -> Result<Boxed<Expr>, ParseFault>
        requires { Nests self.now.depth (F.pre self.now.inner) (F.post self.now.inner) }
        ensures { Reads (spec.predicate (spec.nested self.now.depth) tokens.old) result tokens.new }
    {
        let x = self.sum(tokens)?;
        self.test_behind(tokens, x)
    }

    fn test_behind(
        &self,
        tokens: &mut Tokens<'_>,
        x: Boxed<Expr>,
    ) -> Result<Boxed<Expr>, ParseFault>
        requires { Nests self.now.depth (F.pre self.now.inner) (F.post self.now.inner) }
        ensures { Reads (spec.test_by (spec.nested self.now.depth) x
            (key_of tokens.old.left) tokens.old) result tokens.new }
    {
        match tokens.key() {
            TokenClass::Equal => self.compared(tokens, x, Comparison::Equal),
            TokenClass::Unequal => self.compared(tokens, x, Comparison::Unequal),
            TokenClass::Less => self.compared(tokens, x, Comparison::Less),
            TokenClass::AtMost => self.compared(tokens, x, Comparison::LessOrEqual),
            TokenClass::Greater => self.compared(tokens, x, Comparison::Greater),
            TokenClass::AtLeast => self.compared(tokens, x, Comparison::GreaterOrEqual),
            TokenClass::Is => self.null_test(tokens, x),
            TokenClass::In => self.among(tokens, false, x),
            TokenClass::Between => self.between(tokens, false, x),
            TokenClass::Not => self.negated_test(tokens, x),
            _ => Ok(x),
        }
    }

    #[tactic(auto, unfolding(crate::specs::Read::compared))]
    fn compared(
        &self,
        tokens: &mut Tokens<'_>,
        x: Boxed<Expr>,
        comparison: Comparison,
    ) -> Result<Boxed<Expr>, ParseFault>
        requires { Nests self.now.depth (F.pre self.now.inner) (F.post self.now.inner) }
        ensures { Reads
            (spec.compared (spec.nested self.now.depth) x comparison tokens.old) result tokens.new }
    {
        tokens.skip();
        tokens.spend()?;
        let y = self.sum(tokens)?;
        let x = Expr::Binary(Operator::Compare(comparison), x, y);
        Ok(Boxed::new(self.alloc, x)?)
    }

    #[tactic(auto, unfolding(crate::specs::Read::null_test))]
    fn null_test(&self, tokens: &mut Tokens<'_>, x: Boxed<Expr>) -> Result<Boxed<Expr>, ParseFault>
        requires { Nests self.now.depth (F.pre self.now.inner) (F.post self.now.inner) }
        ensures { Reads
            (spec.null_test (spec.nested self.now.depth) x tokens.old) result tokens.new }
    {
        tokens.skip();
        let negated = tokens.eat(TokenClass::Not);
        tokens.expect(TokenClass::Null)?;
        tokens.spend()?;
        Ok(Boxed::new(self.alloc, Expr::IsNull(negated, x))?)
    }

    #[tactic(auto, unfolding(crate::specs::Read::negated_test))]
    fn negated_test(
        &self,
        tokens: &mut Tokens<'_>,
        x: Boxed<Expr>,
    ) -> Result<Boxed<Expr>, ParseFault>
        requires { Nests self.now.depth (F.pre self.now.inner) (F.post self.now.inner) }
        ensures { Reads
            (spec.negated_test (spec.nested self.now.depth) x tokens.old) result tokens.new }
    {
        tokens.skip();
        match tokens.key() {
            TokenClass::In => self.among(tokens, true, x),
            TokenClass::Between => self.between(tokens, true, x),
            _ => Err(ParseFault::SyntaxError),
        }
    }

    #[tactic(auto, unfolding(crate::specs::Read::among))]
    fn among(
        &self,
        tokens: &mut Tokens<'_>,
        negated: bool,
        x: Boxed<Expr>,
    ) -> Result<Boxed<Expr>, ParseFault>
        requires { Nests self.now.depth (F.pre self.now.inner) (F.post self.now.inner) }
        ensures { Reads
            (spec.among (spec.nested self.now.depth) negated x tokens.old) result tokens.new }
    {
        tokens.skip();
        tokens.expect(TokenClass::LParen)?;
        tokens.spend()?;
        let items = self.items(tokens)?;
        tokens.expect(TokenClass::RParen)?;
        Ok(Boxed::new(self.alloc, Expr::In(negated, x, items))?)
    }

    /// One or more, with commas between them; each counts one more.
    fn items(&self, tokens: &mut Tokens<'_>) -> Result<Items<Expr>, ParseFault>
        requires { Nests self.now.depth (F.pre self.now.inner) (F.post self.now.inner) }
        ensures { Reads (spec.items (spec.nested self.now.depth) tokens.old) result tokens.new }
    {
        let mut found = Items::new(self.alloc);
        for _turn in 0..tokens.room() {
            tokens.spend()?;
            found.push(self.inner(tokens, Level::Whole)?.into_inner())?;
            if !tokens.eat(TokenClass::Comma) {
                return Ok(found);
            }
        }
        Err(ParseFault::SyntaxError)
    }

    #[tactic(auto, unfolding(crate::specs::Read::between))]
    fn between(
        &self,
        tokens: &mut Tokens<'_>,
        negated: bool,
        x: Boxed<Expr>,
    ) -> Result<Boxed<Expr>, ParseFault>
        requires { Nests self.now.depth (F.pre self.now.inner) (F.post self.now.inner) }
        ensures { Reads
            (spec.between (spec.nested self.now.depth) negated x tokens.old) result tokens.new }
    {
        tokens.skip();
        tokens.spend()?;
        let least = self.sum(tokens)?;
        tokens.expect(TokenClass::And)?;
        let greatest = self.sum(tokens)?;
        let x = Expr::Between(negated, x, least, greatest);
        Ok(Boxed::new(self.alloc, x)?)
    }
}
