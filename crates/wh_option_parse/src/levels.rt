//! Conditions of tasks. The rules take the reader of what stands inside as a parameter, so that
//! each is proved by itself.
ghost use Rattle.std.specs.Prelude.{◌≡◌, length, OnErr};
ghost use Rattle.wh_cursor.specs.Chains.{ReadsBy};
ghost use Rattle.wh_cursor.specs.Gives.{Reads};
ghost use Rattle.wh_option_parse.specs.Nests.{Nests};
ghost use Rattle.wh_option_parse.specs.Read as spec;

use crate::lags::read_asked;
use sqlite_items::Boxed;
use std::alloc::Global;
use wh_ast::WhenCondition;
use wh_cursor::{ParseFault, TokenClass, Words, joined};

/// What may stand inside a condition.
#[derive(Clone, Copy)]
pub enum Level {
    /// Inside parentheses.
    Whole,
    /// Behind NOT.
    Negation,
}

#[derive(Drop)]
pub struct Rules<F> {
    pub alloc: Global,
    /// How many parentheses and NOTs may still stand inside one another.
    pub depth: usize,
    pub inner: F,
}

/// What joins two conditions.
#[derive(Clone, Copy)]
enum Connective {
    Or,
    And,
}

/// Takes the connective, if it comes next.
#[tactic(auto, unfolding(crate::specs::Read::read_connective))]
fn read_connective(
    connective: Connective,
    words: &mut Words<'_>,
) -> Result<Option<Connective>, ParseFault>
    ensures { Reads (spec.read_connective connective words.old) result words.new }
{
    let found = match connective {
        Connective::Or => words.eat_word(b"OR"),
        Connective::And => words.eat_word(b"AND"),
    };
    Ok(if found { Some(connective) } else { None })
}

fn connected(
    connective: Connective,
    x: Boxed<WhenCondition>,
    y: Boxed<WhenCondition>,
) -> WhenCondition
    ensures { result ≡ spec.connected connective x y }
{
    match connective {
        Connective::Or => WhenCondition::Or(x, y),
        Connective::And => WhenCondition::And(x, y),
    }
}

fn left_count(words: &Words<'_>) -> usize
    ensures { result ≡ length words.now }
{
    words.rest().len()
}

impl<F: Fn(Global, &mut Words<'_>, usize, Level) -> Result<Boxed<WhenCondition>, ParseFault>> Rules<
    F,
> {
    fn inner(&self, words: &mut Words<'_>, level: Level) -> Result<Boxed<WhenCondition>, ParseFault>
        requires { Nests self.now.depth (F.pre self.now.inner) (F.post self.now.inner) }
        ensures { Reads (spec.nested self.now.depth level words.old) result words.new }
    {
        (self.inner)(self.alloc, words, self.depth, level)
    }

    fn level(&self, words: &mut Words<'_>, level: Level) -> Result<Boxed<WhenCondition>, ParseFault>
        requires { Nests self.now.depth (F.pre self.now.inner) (F.post self.now.inner) }
        ensures { Reads (spec.level (spec.nested self.now.depth) level words.old) result words.new }
    {
        match level {
            Level::Whole => self.whole(words),
            Level::Negation => self.negation(words),
        }
    }

    /// Operands with a connective between them, grouped to the left.
    fn chain<G: Fn(&mut Words<'_>) -> Result<Boxed<WhenCondition>, ParseFault>>(
        &self,
        words: &mut Words<'_>,
        connective: Connective,
        operand: &G,
    ) -> Result<Boxed<WhenCondition>, ParseFault>
        requires callable { G.IsAlwaysCallable operand.now }
        requires reads { ReadsBy (spec.operand (spec.nested self.now.depth) connective)
            (G.post operand.now) }
        ensures { Reads (spec.chain connective
            (spec.operand (spec.nested self.now.depth) connective) words.old) result words.new }
    {
        let first = operand(words)?;
        let most = left_count(words);
        joined(
            self.alloc,
            words,
            first,
            most,
            &|words| read_connective(connective, words),
            operand,
            &connected,
        )
    }

    /// Operands of OR.
    #[tactic(auto, unfolding(crate::specs::Read::whole))]
    fn whole(&self, words: &mut Words<'_>) -> Result<Boxed<WhenCondition>, ParseFault>
        requires { Nests self.now.depth (F.pre self.now.inner) (F.post self.now.inner) }
        ensures { Reads (spec.whole (spec.nested self.now.depth) words.old) result words.new }
    {
        self.chain(words, Connective::Or, &|words| self.conjunction(words))
    }

    /// Operands of AND.
    #[tactic(auto, unfolding(crate::specs::Read::conjunction))]
    fn conjunction(&self, words: &mut Words<'_>) -> Result<Boxed<WhenCondition>, ParseFault>
        requires { Nests self.now.depth (F.pre self.now.inner) (F.post self.now.inner) }
        ensures { Reads (spec.conjunction (spec.nested self.now.depth) words.old) result words.new }
    {
        self.chain(words, Connective::And, &|words| self.negation(words))
    }

    #[tactic(auto, unfolding(crate::specs::Read::negation))]
    fn negation(&self, words: &mut Words<'_>) -> Result<Boxed<WhenCondition>, ParseFault>
        requires { Nests self.now.depth (F.pre self.now.inner) (F.post self.now.inner) }
        ensures { Reads (spec.negation (spec.nested self.now.depth) words.old) result words.new }
    {
        if words.sees_word(b"NOT") {
            return self.negated(words);
        }
        if words.sees(TokenClass::LParen) {
            return self.parenthesized(words);
        }
        self.has_data(words)
    }

    /// At `NOT`.
    #[tactic(auto, unfolding(crate::specs::Read::negated))]
    fn negated(&self, words: &mut Words<'_>) -> Result<Boxed<WhenCondition>, ParseFault>
        requires { Nests self.now.depth (F.pre self.now.inner) (F.post self.now.inner) }
        ensures { Reads (spec.negated (spec.nested self.now.depth) words.old) result words.new }
    {
        words.skip();
        let x = self.inner(words, Level::Negation)?;
        Ok(Boxed::new(self.alloc, WhenCondition::Not(x))?)
    }

    /// At `(`.
    #[tactic(auto, unfolding(crate::specs::Read::parenthesized))]
    fn parenthesized(&self, words: &mut Words<'_>) -> Result<Boxed<WhenCondition>, ParseFault>
        requires { Nests self.now.depth (F.pre self.now.inner) (F.post self.now.inner) }
        ensures { Reads (spec.parenthesized (spec.nested self.now.depth) words.old) result
            words.new }
    {
        words.skip();
        let x = self.inner(words, Level::Whole)?;
        words.expect(TokenClass::RParen)?;
        Ok(x)
    }

    #[tactic(auto, unfolding(crate::specs::Read::has_data))]
    fn has_data(&self, words: &mut Words<'_>) -> Result<Boxed<WhenCondition>, ParseFault>
        ensures { Reads (spec.has_data (spec.nested self.now.depth) words.old) result words.new }
    {
        let name = read_asked(self.alloc, words)?;
        Ok(Boxed::new(self.alloc, WhenCondition::HasData(name))?)
    }
}

/// What stands inside, with at most `depth` inside one another.
fn nested(
    alloc: Global,
    words: &mut Words<'_>,
    depth: usize,
    level: Level,
) -> Result<Boxed<WhenCondition>, ParseFault>
    ensures { Reads (spec.nested depth level words.old) result words.new }
{
    if depth == 0 {
        return Err(ParseFault::SyntaxError);
    }
    Rules {
        alloc,
        depth: depth - 1,
        inner: nested,
    }
    .level(words, level)
}

/// A condition, and neither OR nor AND behind it.
#[tactic(auto, unfolding(crate::specs::Read::read_condition, crate::specs::Read::no_operator))]
pub fn read_condition(
    alloc: Global,
    words: &mut Words<'_>,
    depth: usize,
) -> Result<WhenCondition, ParseFault>
    ensures reads { Reads (spec.read_condition depth words.old) result words.new }
    ensures kept { OnErr result (words.new ≡ words.old) }
{
    let mut ahead = Words::new(words.rest());
    let x = nested(alloc, &mut ahead, depth, Level::Whole)?;
    if ahead.sees_word(b"OR") || ahead.sees_word(b"AND") {
        return Err(ParseFault::SyntaxError);
    }
    *words = ahead;
    Ok(x.into_inner())
}
