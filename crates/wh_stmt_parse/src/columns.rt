//! The columns of a table.

ghost use Rattle.std.specs.Prelude.{◌≡◌, bytes_eq};
ghost use Rattle.wh_cursor.specs.Gives.{Reads};
ghost use Rattle.wh_stmt_parse.specs.Parts as spec;

use sqlite_items::Items;
use std::alloc::Global;
use wh_cursor::{ParseFault, Words, listed, name};
use wh_value::{Column, ColumnType, Text};

fn is_word(word: &Text, letters: &[u8]) -> bool
    ensures { result ≡ bytes_eq word.now letters.now }
{
    word.as_bytes() == letters
}

/// A type by any of its names.
#[tactic(auto, unfolding(crate::specs::Parts::type_of))]
fn type_of(word: &Text) -> Option<ColumnType>
    ensures { result ≡ spec.type_of word.now }
{
    if is_word(word, b"NUMBER")
        || is_word(word, b"INT")
        || is_word(word, b"INTEGER")
        || is_word(word, b"BIGINT")
    {
        return Some(ColumnType::Number);
    }
    if is_word(word, b"VARCHAR") || is_word(word, b"STRING") || is_word(word, b"TEXT") {
        return Some(ColumnType::Varchar);
    }
    if is_word(word, b"BOOLEAN") {
        return Some(ColumnType::Boolean);
    }
    None
}

#[tactic(auto, unfolding(crate::specs::Parts::read_type))]
fn column_type(alloc: Global, words: &mut Words<'_>) -> Result<ColumnType, ParseFault>
    ensures { Reads (spec.read_type words.old) result words.new }
{
    let word = words.word(alloc)?;
    match type_of(&word) {
        Some(found) => Ok(found),
        None => Err(ParseFault::SyntaxError),
    }
}

/// To any depth, since nothing stands inside a column.
#[tactic(auto, unfolding(crate::specs::Parts::read_column))]
fn column(alloc: Global, words: &mut Words<'_>, _depth: usize) -> Result<Column, ParseFault>
    ensures { Reads (spec.read_column words.old) result words.new }
{
    let name = name(alloc, words)?;
    let column_type = column_type(alloc, words)?;
    Ok(Column { name, column_type })
}

/// One or more, with commas between them.
#[tactic(auto, unfolding(crate::specs::Parts::read_columns))]
pub fn columns(alloc: Global, words: &mut Words<'_>) -> Result<Items<Column>, ParseFault>
    ensures { Reads (spec.read_columns words.old) result words.new }
{
    listed(alloc, words, 0, &column)
}
