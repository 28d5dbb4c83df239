//! The levels of operators, the loosest first.

ghost use Rattle.std.specs.Prelude.{◌≡◌, [], true, false};
ghost use Rattle.wh_cursor.specs.Chains.{ReadsBy};
ghost use Rattle.wh_cursor.specs.Gives.{Reads};
ghost use Rattle.wh_expr_parse.specs.Read as spec;
ghost use Rattle.wh_expr_parse.specs.Nests.{Nests};

use crate::grammar::{Grammar, Level};
use crate::operators::read_operator;
use crate::tokens::Tokens;
use sqlite_items::Boxed;
use std::alloc::Global;
use wh_ast::Expr;
use wh_cursor::{ParseFault, TokenClass, joined};

impl<F: Fn(Global, &mut Tokens<'_>, usize, Level) -> Result<Boxed<Expr>, ParseFault>> Grammar<F> {
    /// Operands with a level's operators between them, grouped to the left.
    fn chain<G: Fn(&mut Tokens<'_>) -> Result<Boxed<Expr>, ParseFault>>(
        &self,
        tokens: &mut Tokens<'_>,
        level: u8,
        operand: &G,
    ) -> Result<Boxed<Expr>, ParseFault>
        requires callable { G.IsAlwaysCallable operand.now }
        requires reads { ReadsBy (spec.operand (spec.nested self.now.depth) level)
            (G.post operand.now) }
        ensures { Reads (spec.chain level (spec.operand (spec.nested self.now.depth) level)
            tokens.old) result tokens.new }
    {
        let first = operand(tokens)?;
        let most = tokens.room();
        joined(
            self.alloc,
            tokens,
            first,
            most,
            &|tokens| read_operator(level, tokens),
            operand,
            &|operator, x, y| Expr::Binary(operator, x, y),
        )
    }

    /// Operands of OR.
    #[tactic(auto, unfolding(crate::specs::Read::whole, crate::specs::Read::operand))]
    pub fn whole(&self, tokens: &mut Tokens<'_>) -> Result<Boxed<Expr>, ParseFault>
        requires { Nests self.now.depth (F.pre self.now.inner) (F.post self.now.inner) }
        ensures { Reads (spec.whole (spec.nested self.now.depth) tokens.old) result tokens.new }
    {
        self.chain(tokens, 1, &|tokens| self.conjunction(tokens))
    }

    /// Operands of AND.
    #[tactic(auto, unfolding(crate::specs::Read::conjunction, crate::specs::Read::operand))]
    fn conjunction(&self, tokens: &mut Tokens<'_>) -> Result<Boxed<Expr>, ParseFault>
        requires { Nests self.now.depth (F.pre self.now.inner) (F.post self.now.inner) }
        ensures { Reads
            (spec.conjunction (spec.nested self.now.depth) tokens.old) result tokens.new }
    {
        self.chain(tokens, 2, &|tokens| self.negation(tokens))
    }

    #[tactic(auto, unfolding(crate::specs::Read::negation))]
    pub fn negation(&self, tokens: &mut Tokens<'_>) -> Result<Boxed<Expr>, ParseFault>
        requires { Nests self.now.depth (F.pre self.now.inner) (F.post self.now.inner) }
        ensures { Reads (spec.negation (spec.nested self.now.depth) tokens.old) result tokens.new }
    {
        if tokens.sees(TokenClass::Not) {
            self.not_test(tokens)
        } else {
            self.predicate(tokens)
        }
    }

    #[tactic(auto, unfolding(crate::specs::Read::not_test))]
    fn not_test(&self, tokens: &mut Tokens<'_>) -> Result<Boxed<Expr>, ParseFault>
        requires { Nests self.now.depth (F.pre self.now.inner) (F.post self.now.inner) }
        ensures { Reads (spec.not_test (spec.nested self.now.depth) tokens.old) result tokens.new }
    {
        tokens.skip();
        tokens.spend()?;
        let x = self.inner(tokens, Level::Negation)?;
        Ok(Boxed::new(self.alloc, Expr::Not(x))?)
    }

    /// Operands of plus and minus.
    #[tactic(auto, unfolding(crate::specs::Read::sum, crate::specs::Read::operand))]
    pub fn sum(&self, tokens: &mut Tokens<'_>) -> Result<Boxed<Expr>, ParseFault>
        requires { Nests self.now.depth (F.pre self.now.inner) (F.post self.now.inner) }
        ensures { Reads (spec.sum (spec.nested self.now.depth) tokens.old) result tokens.new }
    {
        self.chain(tokens, 4, &|tokens| self.product(tokens))
    }

    /// Operands of a star.
    #[tactic(auto, unfolding(crate::specs::Read::product, crate::specs::Read::operand))]
    fn product(&self, tokens: &mut Tokens<'_>) -> Result<Boxed<Expr>, ParseFault>
        requires { Nests self.now.depth (F.pre self.now.inner) (F.post self.now.inner) }
        ensures { Reads (spec.product (spec.nested self.now.depth) tokens.old) result tokens.new }
    {
        self.chain(tokens, 5, &|tokens| self.unary(tokens))
    }

    #[tactic(auto, unfolding(crate::specs::Read::unary))]
    pub fn unary(&self, tokens: &mut Tokens<'_>) -> Result<Boxed<Expr>, ParseFault>
        requires { Nests self.now.depth (F.pre self.now.inner) (F.post self.now.inner) }
        ensures { Reads (spec.unary (spec.nested self.now.depth) tokens.old) result tokens.new }
    {
        if tokens.sees(TokenClass::Minus) {
            self.negative(tokens)
        } else {
            self.primary(tokens)
        }
    }

    #[tactic(auto, unfolding(crate::specs::Read::negative))]
    fn negative(&self, tokens: &mut Tokens<'_>) -> Result<Boxed<Expr>, ParseFault>
        requires { Nests self.now.depth (F.pre self.now.inner) (F.post self.now.inner) }
        ensures { Reads (spec.negative (spec.nested self.now.depth) tokens.old) result tokens.new }
    {
        tokens.skip();
        tokens.spend()?;
        let x = self.inner(tokens, Level::Unary)?;
        Ok(Boxed::new(self.alloc, Expr::Neg(x))?)
    }
}
