//! The rules take the reader of what stands in parentheses as a parameter, so that each is proved
//! by itself.

ghost use Rattle.std.specs.Prelude.{◌≡◌, [], OnErr};
ghost use Rattle.wh_cursor.specs.Gives.{Reads};
ghost use Rattle.wh_query_parse.specs.Follow as follow;
ghost use Rattle.wh_query_parse.specs.Nests.{Nests};
ghost use Rattle.wh_query_parse.specs.Read as spec;

use crate::follow::{ends_query, sees_join};
use crate::items::items;
use crate::parts::{expect_alias_end, group, named, optional_alias, optional_filter};
use sqlite_items::{Boxed, Items};
use std::alloc::Global;
use wh_ast::{Core, FromItem, Join, Query};
use wh_cursor::{ParseFault, TokenClass, Words, name};
use wh_expr_parse::expr;

/// How many cores a query may have.
const CORES: usize = 64;

/// How many joins a core may have.
const JOINS: usize = 15;

#[derive(Drop)]
pub struct Grammar<F> {
    pub alloc: Global,
    /// How many parentheses, NOT and minus signs may still stand inside one another.
    pub depth: usize,
    pub inner: F,
}

#[tactic(auto, unfolding(crate::specs::Read::read_named_source))]
fn named_source(alloc: Global, words: &mut Words<'_>) -> Result<Boxed<FromItem>, ParseFault>
    ensures { Reads (spec.read_named_source words.old) result words.new }
{
    let object = name(alloc, words)?;
    let alias = optional_alias(alloc, words)?;
    Ok(Boxed::new(alloc, FromItem::Named(object, alias))?)
}

#[tactic(auto, unfolding(crate::specs::Read::provided))]
fn expect_query_end(words: &mut Words<'_>) -> Result<(), ParseFault>
    ensures { Reads (spec.provided follow.ends_query words.old) result words.new }
{
    if ends_query(words) {
        Ok(())
    } else {
        Err(ParseFault::SyntaxError)
    }
}

impl<F: Fn(Global, &mut Words<'_>, usize) -> Result<Query, ParseFault>> Grammar<F> {
    fn inner(&self, words: &mut Words<'_>) -> Result<Query, ParseFault>
        requires { Nests self.now.depth (F.pre self.now.inner) (F.post self.now.inner) }
        ensures { Reads (spec.nested self.now.depth words.old) result words.new }
    {
        (self.inner)(self.alloc, words, self.depth)
    }

    /// Takes a query in parentheses, and its alias.
    #[tactic(auto, unfolding(crate::specs::Read::read_subquery))]
    fn subquery(&self, words: &mut Words<'_>) -> Result<Boxed<FromItem>, ParseFault>
        requires { Nests self.now.depth (F.pre self.now.inner) (F.post self.now.inner) }
        ensures { Reads (spec.read_subquery (spec.nested self.now.depth) words.old)
            result words.new }
    {
        words.skip();
        let query = Boxed::new(self.alloc, self.inner(words)?)?;
        words.expect(TokenClass::RParen)?;
        let alias = named(self.alloc, words)?;
        expect_alias_end(words)?;
        Ok(Boxed::new(self.alloc, FromItem::Subquery(query, alias))?)
    }

    #[tactic(auto, unfolding(crate::specs::Read::source_of))]
    pub fn source(&self, words: &mut Words<'_>) -> Result<Boxed<FromItem>, ParseFault>
        requires { Nests self.now.depth (F.pre self.now.inner) (F.post self.now.inner) }
        ensures { Reads (spec.source_of (spec.nested self.now.depth) words.old) result words.new }
    {
        if words.sees(TokenClass::LParen) {
            self.subquery(words)
        } else {
            named_source(self.alloc, words)
        }
    }

    /// Takes a join at its JOIN.
    #[tactic(auto, unfolding(crate::specs::Read::read_joined))]
    fn joined(&self, words: &mut Words<'_>) -> Result<Join, ParseFault>
        requires { Nests self.now.depth (F.pre self.now.inner) (F.post self.now.inner) }
        ensures { Reads (spec.read_joined (spec.nested self.now.depth) self.now.depth words.old)
            result words.new }
    {
        words.expect_word(b"JOIN")?;
        let source = self.source(words)?;
        words.expect_word(b"ON")?;
        let on = expr(self.alloc, words, self.depth)?;
        Ok(Join {
            source: source.into_inner(),
            on,
        })
    }

    #[tactic(auto, unfolding(crate::specs::Read::read_join))]
    fn join(&self, words: &mut Words<'_>) -> Result<Join, ParseFault>
        requires { Nests self.now.depth (F.pre self.now.inner) (F.post self.now.inner) }
        ensures { Reads (spec.read_join (spec.nested self.now.depth) self.now.depth words.old)
            result words.new }
    {
        words.eat_word(b"INNER");
        self.joined(words)
    }

    /// The joins of a core, at most 15.
    fn joins(&self, words: &mut Words<'_>) -> Result<Items<Join>, ParseFault>
        requires { Nests self.now.depth (F.pre self.now.inner) (F.post self.now.inner) }
        ensures { Reads (spec.joins_from (spec.nested self.now.depth) self.now.depth 15 []
            words.old) result words.new }
    {
        let mut found = Items::new(self.alloc);
        for _turn in 0..JOINS {
            if !sees_join(words) {
                return Ok(found);
            }
            found.push(self.join(words)?)?;
        }
        Ok(found)
    }

    #[tactic(auto, unfolding(crate::specs::Read::read_core))]
    fn core(&self, words: &mut Words<'_>) -> Result<Core, ParseFault>
        requires { Nests self.now.depth (F.pre self.now.inner) (F.post self.now.inner) }
        ensures { Reads (spec.read_core (spec.nested self.now.depth) self.now.depth words.old)
            result words.new }
    {
        words.expect_word(b"SELECT")?;
        let items = items(self.alloc, words, self.depth)?;
        words.expect_word(b"FROM")?;
        let from = self.source(words)?;
        let joins = self.joins(words)?;
        let filter = Boxed::new(self.alloc, optional_filter(self.alloc, words, self.depth)?)?;
        let group = group(self.alloc, words, self.depth)?;
        Ok(Core {
            items,
            from: from.into_inner(),
            joins,
            filter: filter.into_inner(),
            group,
        })
    }

    /// One core or more, at most 64.
    fn cores(&self, words: &mut Words<'_>) -> Result<Items<Core>, ParseFault>
        requires { Nests self.now.depth (F.pre self.now.inner) (F.post self.now.inner) }
        ensures { Reads (spec.cores_from (spec.nested self.now.depth) self.now.depth 64 []
            words.old) result words.new }
    {
        let mut found = Items::new(self.alloc);
        for _turn in 0..CORES {
            found.push(self.core(words)?)?;
            if !words.eat_word(b"UNION") {
                return Ok(found);
            }
            words.expect_word(b"ALL")?;
        }
        Err(ParseFault::SyntaxError)
    }

    #[tactic(auto, unfolding(crate::specs::Read::query_of))]
    pub fn query(&self, words: &mut Words<'_>) -> Result<Query, ParseFault>
        requires { Nests self.now.depth (F.pre self.now.inner) (F.post self.now.inner) }
        ensures { Reads (spec.query_of (spec.nested self.now.depth) self.now.depth words.old)
            result words.new }
    {
        let cores = self.cores(words)?;
        expect_query_end(words)?;
        Ok(Query { cores })
    }
}

/// The query in parentheses, with at most `depth` inside one another.
fn nested(alloc: Global, words: &mut Words<'_>, depth: usize) -> Result<Query, ParseFault>
    ensures { Reads (spec.nested depth words.old) result words.new }
{
    if depth == 0 {
        return Err(ParseFault::SyntaxError);
    }
    Grammar {
        alloc,
        depth: depth - 1,
        inner: nested,
    }
    .query(words)
}

#[tactic(auto, unfolding(crate::specs::Read::read_query))]
pub fn whole_query(alloc: Global, words: &mut Words<'_>, depth: usize) -> Result<Query, ParseFault>
    ensures reads { Reads (spec.read_query depth words.old) result words.new }
    ensures kept { OnErr result (words.new ≡ words.old) }
{
    let mut ahead = Words::new(words.rest());
    let query = Grammar {
        alloc,
        depth,
        inner: nested,
    }
    .query(&mut ahead)?;
    *words = ahead;
    Ok(query)
}

#[tactic(auto, unfolding(crate::specs::Read::read_source))]
pub fn whole_source(
    alloc: Global,
    words: &mut Words<'_>,
    depth: usize,
) -> Result<FromItem, ParseFault>
    ensures reads { Reads (spec.read_source depth words.old) result words.new }
    ensures kept { OnErr result (words.new ≡ words.old) }
{
    let mut ahead = Words::new(words.rest());
    let source = Grammar {
        alloc,
        depth,
        inner: nested,
    }
    .source(&mut ahead)?;
    *words = ahead;
    Ok(source.into_inner())
}
