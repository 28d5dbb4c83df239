//! What SELECT shows.

ghost use Rattle.std.specs.Prelude.{◌≡◌, []};
ghost use Rattle.wh_cursor.specs.Gives.{Reads};
ghost use Rattle.wh_query_parse.specs.Read as spec;

use crate::follow::names_all;
use crate::parts::optional_alias;
use sqlite_items::{Boxed, Items};
use std::alloc::Global;
use wh_ast::Item;
use wh_cursor::{ParseFault, TokenClass, Words, listed, name};
use wh_expr_parse::expr;

/// Takes a name and the `. *` behind it.
#[tactic(auto, unfolding(crate::specs::Read::read_all_of))]
fn all_of(alloc: Global, words: &mut Words<'_>) -> Result<Item, ParseFault>
    ensures { Reads (spec.read_all_of words.old) result words.new }
{
    let entry = name(alloc, words)?;
    words.skip();
    words.skip();
    Ok(Item::StarOf(entry))
}

#[tactic(auto, unfolding(crate::specs::Read::read_shown))]
fn shown(alloc: Global, words: &mut Words<'_>, depth: usize) -> Result<Item, ParseFault>
    ensures { Reads (spec.read_shown depth words.old) result words.new }
{
    let x = Boxed::new(alloc, expr(alloc, words, depth)?)?;
    let alias = optional_alias(alloc, words)?;
    Ok(Item::Expr(x.into_inner(), alias))
}

#[tactic(auto, unfolding(crate::specs::Read::read_item))]
fn item(alloc: Global, words: &mut Words<'_>, depth: usize) -> Result<Item, ParseFault>
    ensures { Reads (spec.read_item depth words.old) result words.new }
{
    if words.sees(TokenClass::Star) {
        words.skip();
        return Ok(Item::Star);
    }
    if names_all(words) {
        return all_of(alloc, words);
    }
    shown(alloc, words, depth)
}

/// One item or more, with commas between them.
#[tactic(auto, unfolding(crate::specs::Read::read_items))]
pub fn items(alloc: Global, words: &mut Words<'_>, depth: usize) -> Result<Items<Item>, ParseFault>
    ensures { Reads (spec.read_items depth words.old) result words.new }
{
    listed(alloc, words, depth, &item)
}
