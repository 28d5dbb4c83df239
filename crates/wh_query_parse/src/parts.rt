//! Aliases, conditions and groups.

ghost use Rattle.std.specs.Prelude.{◌≡◌, [], OnErr};
ghost use Rattle.wh_cursor.specs.Gives.{Reads};
ghost use Rattle.wh_query_parse.specs.Follow as follow;
ghost use Rattle.wh_query_parse.specs.Read as spec;

use crate::follow::{ends_alias, ends_filter};
use sqlite_items::{Boxed, Items};
use std::alloc::Global;
use wh_ast::Expr;
use wh_cursor::{ParseFault, Words, name};
use wh_expr_parse::{expr, exprs};
use wh_value::Text;

/// Takes an alias, with or without AS.
#[tactic(auto, unfolding(crate::specs::Read::read_named))]
pub fn named(alloc: Global, words: &mut Words<'_>) -> Result<Text, ParseFault>
    ensures { Reads (spec.read_named words.old) result words.new }
{
    words.eat_word(b"AS");
    name(alloc, words)
}

#[tactic(auto, unfolding(crate::specs::Read::provided))]
pub fn expect_alias_end(words: &mut Words<'_>) -> Result<(), ParseFault>
    ensures { Reads (spec.provided follow.ends_alias words.old) result words.new }
{
    if ends_alias(words) {
        Ok(())
    } else {
        Err(ParseFault::SyntaxError)
    }
}

/// Takes an alias, and no name may stand behind it.
#[tactic(auto, unfolding(crate::specs::Read::some_alias))]
fn some_alias(alloc: Global, words: &mut Words<'_>) -> Result<Option<Text>, ParseFault>
    ensures reads { Reads (spec.some_alias words.old) result words.new }
    ensures kept { OnErr result (words.new ≡ words.old) }
{
    let mut ahead = Words::new(words.rest());
    let name = named(alloc, &mut ahead)?;
    expect_alias_end(&mut ahead)?;
    *words = ahead;
    Ok(Some(name))
}

#[tactic(auto, unfolding(crate::specs::Read::read_alias))]
pub fn optional_alias(alloc: Global, words: &mut Words<'_>) -> Result<Option<Text>, ParseFault>
    ensures reads { Reads (spec.read_alias words.old) result words.new }
    ensures kept { OnErr result (words.new ≡ words.old) }
{
    if ends_alias(words) {
        Ok(None)
    } else {
        some_alias(alloc, words)
    }
}

#[tactic(auto, unfolding(crate::specs::Read::provided))]
fn expect_filter_end(words: &mut Words<'_>) -> Result<(), ParseFault>
    ensures { Reads (spec.provided follow.ends_filter words.old) result words.new }
{
    if ends_filter(words) {
        Ok(())
    } else {
        Err(ParseFault::SyntaxError)
    }
}

fn filter_by(
    alloc: Global,
    words: &mut Words<'_>,
    depth: usize,
    found: bool,
) -> Result<Option<Expr>, ParseFault>
    ensures { Reads (spec.filter_by depth found words.old) result words.new }
{
    if found {
        Ok(Some(expr(alloc, words, depth)?))
    } else {
        Ok(None)
    }
}

#[tactic(auto, unfolding(crate::specs::Read::read_filter))]
pub fn optional_filter(
    alloc: Global,
    words: &mut Words<'_>,
    depth: usize,
) -> Result<Option<Expr>, ParseFault>
    ensures reads { Reads (spec.read_filter depth words.old) result words.new }
    ensures kept { OnErr result (words.new ≡ words.old) }
{
    let mut ahead = Words::new(words.rest());
    let found = ahead.eat_word(b"WHERE");
    let filter = Boxed::new(alloc, filter_by(alloc, &mut ahead, depth, found)?)?;
    expect_filter_end(&mut ahead)?;
    *words = ahead;
    Ok(filter.into_inner())
}

fn group_by(
    alloc: Global,
    words: &mut Words<'_>,
    depth: usize,
    found: bool,
) -> Result<Items<Expr>, ParseFault>
    ensures { Reads (spec.group_by depth found words.old) result words.new }
{
    if !found {
        return Ok(Items::new(alloc));
    }
    words.expect_word(b"BY")?;
    exprs(alloc, words, depth)
}

/// Takes what the rows are grouped by, if GROUP comes next.
#[tactic(auto, unfolding(crate::specs::Read::read_group))]
pub fn group(alloc: Global, words: &mut Words<'_>, depth: usize) -> Result<Items<Expr>, ParseFault>
    ensures { Reads (spec.read_group depth words.old) result words.new }
{
    let found = words.eat_word(b"GROUP");
    group_by(alloc, words, depth, found)
}
