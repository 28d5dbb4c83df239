//! The order of a query's rows.

ghost use Rattle.std.specs.Prelude.{◌≡◌, Some};
ghost use Rattle.wh_cursor.specs.Gives.{Reads};
ghost use Rattle.wh_stmt_parse.specs.Parts as spec;

use sqlite_items::Items;
use std::alloc::Global;
use wh_ast::Sort;
use wh_cursor::{ParseFault, TokenClass, Words, listed, name};

/// A column's name, or its number.
#[tactic(auto, unfolding(crate::specs::Parts::read_key))]
fn key(alloc: Global, words: &mut Words<'_>) -> Result<wh_ast::OrderKey, ParseFault>
    ensures { Reads (spec.read_key words.old) result words.new }
{
    if words.sees(TokenClass::Number) {
        let number = words.number()?;
        return Ok(wh_ast::OrderKey::Position(number));
    }
    let name = name(alloc, words)?;
    Ok(wh_ast::OrderKey::Name(name))
}

/// Whether DESC is written.
#[tactic(auto, unfolding(crate::specs::Parts::read_direction))]
fn descending(words: &mut Words<'_>) -> bool
    ensures { spec.read_direction words.old ≡ Some (result, words.new) }
{
    if words.eat_word(b"DESC") {
        return true;
    }
    words.eat_word(b"ASC");
    false
}

/// To any depth, since nothing stands inside a sort key.
#[tactic(auto, unfolding(crate::specs::Parts::read_sort))]
fn sort(alloc: Global, words: &mut Words<'_>, _depth: usize) -> Result<Sort, ParseFault>
    ensures { Reads (spec.read_sort words.old) result words.new }
{
    let key = key(alloc, words)?;
    let descending = descending(words);
    Ok(Sort { key, descending })
}

/// One or more, with commas between them.
#[tactic(auto, unfolding(crate::specs::Parts::read_sorts))]
fn sorts(alloc: Global, words: &mut Words<'_>) -> Result<Items<Sort>, ParseFault>
    ensures { Reads (spec.read_sorts words.old) result words.new }
{
    listed(alloc, words, 0, &sort)
}

/// `ORDER BY key {, key}`, or nothing.
#[tactic(auto, unfolding(crate::specs::Parts::read_order))]
pub fn order(alloc: Global, words: &mut Words<'_>) -> Result<Items<Sort>, ParseFault>
    ensures { Reads (spec.read_order words.old) result words.new }
{
    if !words.eat_word(b"ORDER") {
        return Ok(Items::new(alloc));
    }
    words.expect_word(b"BY")?;
    sorts(alloc, words)
}
