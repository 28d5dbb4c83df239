//! What may stand at the end of a statement.

ghost use Rattle.wh_cursor.specs.Gives.{Reads};
ghost use Rattle.wh_stmt_parse.specs.Parts as spec;

use sqlite_items::Items;
use std::alloc::Global;
use wh_cursor::{ParseFault, TokenClass, Words};
use wh_dml_parse::names;
use wh_value::Text;

/// `DATA_RETENTION_TIME_IN_DAYS = number`, or nothing.
#[tactic(auto, unfolding(crate::specs::Parts::read_retention))]
pub fn retention(words: &mut Words<'_>) -> Result<Option<u64>, ParseFault>
    ensures { Reads (spec.read_retention words.old) result words.new }
{
    if !words.eat_word(b"DATA_RETENTION_TIME_IN_DAYS") {
        return Ok(None);
    }
    words.expect(TokenClass::Equal)?;
    let days = words.number()?;
    Ok(Some(days))
}

#[tactic(auto, unfolding(crate::specs::Parts::read_truth))]
fn truth(words: &mut Words<'_>) -> Result<bool, ParseFault>
    ensures { Reads (spec.read_truth words.old) result words.new }
{
    if words.eat_word(b"TRUE") {
        return Ok(true);
    }
    words.expect_word(b"FALSE")?;
    Ok(false)
}

/// `APPEND_ONLY = TRUE`, `APPEND_ONLY = FALSE`, or nothing.
#[tactic(auto, unfolding(crate::specs::Parts::read_append))]
pub fn append_only(words: &mut Words<'_>) -> Result<bool, ParseFault>
    ensures { Reads (spec.read_append words.old) result words.new }
{
    if !words.eat_word(b"APPEND_ONLY") {
        return Ok(false);
    }
    words.expect(TokenClass::Equal)?;
    truth(words)
}

/// `AFTER name {, name}`, or nothing.
#[tactic(auto, unfolding(crate::specs::Parts::read_after))]
pub fn after(alloc: Global, words: &mut Words<'_>) -> Result<Items<Text>, ParseFault>
    ensures { Reads (spec.read_after words.old) result words.new }
{
    if words.eat_word(b"AFTER") {
        return names(alloc, words);
    }
    Ok(Items::new(alloc))
}
