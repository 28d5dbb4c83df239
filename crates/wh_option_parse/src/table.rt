//! Options of dynamic tables.
ghost use Rattle.std.specs.Prelude.{◌≡◌, OnErr};
ghost use Rattle.wh_cursor.specs.Gives.{Reads};
ghost use Rattle.wh_option_parse.specs.Read as spec;
ghost use Rattle.wh_option_parse.specs.View.{seen};

use crate::gathering::options;
use crate::lags::read_lag;
use std::alloc::Global;
use wh_ast::{Initialize, Lag, RefreshMode};
use wh_cursor::{ParseFault, TokenClass, Words, name};
use wh_value::Text;

/// What the options of a dynamic table say.
#[derive(Clone, Copy, Debug, PartialEq, Eq)]
pub struct TableOptions {
    pub lag: Lag,
    pub mode: RefreshMode,
    pub initialize: Initialize,
}

/// The options of a dynamic table so far.
#[derive(Clone, Copy)]
pub struct TableParts {
    pub lag: Option<Lag>,
    pub warehouse: bool,
    pub mode: Option<RefreshMode>,
    pub initialize: Option<Initialize>,
}

/// Behind TARGET_LAG.
#[tactic(auto, unfolding(crate::specs::Read::table_lag))]
fn table_lag(
    alloc: Global,
    words: &mut Words<'_>,
    parts: TableParts,
) -> Result<TableParts, ParseFault>
    ensures { Reads (spec.table_lag parts words.old) result words.new }
{
    if parts.lag.is_some() {
        return Err(ParseFault::SyntaxError);
    }
    words.expect(TokenClass::Equal)?;
    let lag = read_lag(alloc, words)?;
    Ok(TableParts {
        lag: Some(lag),
        warehouse: parts.warehouse,
        mode: parts.mode,
        initialize: parts.initialize,
    })
}

/// Behind WAREHOUSE. The name has no meaning here.
#[tactic(auto, unfolding(crate::specs::Read::table_warehouse))]
fn table_warehouse(
    alloc: Global,
    words: &mut Words<'_>,
    parts: TableParts,
) -> Result<TableParts, ParseFault>
    ensures { Reads (spec.table_warehouse parts words.old) result words.new }
{
    if parts.warehouse {
        return Err(ParseFault::SyntaxError);
    }
    words.expect(TokenClass::Equal)?;
    let _name = name(alloc, words)?;
    Ok(TableParts {
        lag: parts.lag,
        warehouse: true,
        mode: parts.mode,
        initialize: parts.initialize,
    })
}

fn is_word(word: &Text, letters: &[u8]) -> bool
    ensures { result ≡ spec.is_word word.now letters.now }
{
    word.as_bytes() == letters
}

fn mode(word: &Text) -> Option<RefreshMode>
    ensures { result ≡ spec.mode_of word.now }
{
    if is_word(word, b"AUTO") {
        return Some(RefreshMode::Auto);
    }
    if is_word(word, b"FULL") {
        return Some(RefreshMode::Full);
    }
    if is_word(word, b"INCREMENTAL") {
        return Some(RefreshMode::Incremental);
    }
    None
}

fn initialize(word: &Text) -> Option<Initialize>
    ensures { result ≡ spec.initialize_of word.now }
{
    if is_word(word, b"ON_CREATE") {
        return Some(Initialize::OnCreate);
    }
    if is_word(word, b"ON_SCHEDULE") {
        return Some(Initialize::OnSchedule);
    }
    None
}

/// Behind REFRESH_MODE.
#[tactic(auto, unfolding(crate::specs::Read::table_mode))]
fn table_mode(
    alloc: Global,
    words: &mut Words<'_>,
    parts: TableParts,
) -> Result<TableParts, ParseFault>
    ensures { Reads (spec.table_mode parts words.old) result words.new }
{
    if parts.mode.is_some() {
        return Err(ParseFault::SyntaxError);
    }
    words.expect(TokenClass::Equal)?;
    let word = words.word(alloc)?;
    let Some(mode) = mode(&word) else {
        return Err(ParseFault::SyntaxError);
    };
    Ok(TableParts {
        lag: parts.lag,
        warehouse: parts.warehouse,
        mode: Some(mode),
        initialize: parts.initialize,
    })
}

/// Behind INITIALIZE.
#[tactic(auto, unfolding(crate::specs::Read::table_initialize))]
fn table_initialize(
    alloc: Global,
    words: &mut Words<'_>,
    parts: TableParts,
) -> Result<TableParts, ParseFault>
    ensures { Reads (spec.table_initialize parts words.old) result words.new }
{
    if parts.initialize.is_some() {
        return Err(ParseFault::SyntaxError);
    }
    words.expect(TokenClass::Equal)?;
    let word = words.word(alloc)?;
    let Some(initialize) = initialize(&word) else {
        return Err(ParseFault::SyntaxError);
    };
    Ok(TableParts {
        lag: parts.lag,
        warehouse: parts.warehouse,
        mode: parts.mode,
        initialize: Some(initialize),
    })
}

/// One option more, if one comes next.
#[tactic(auto, unfolding(crate::specs::Read::table_option))]
fn table_option(
    alloc: Global,
    words: &mut Words<'_>,
    parts: TableParts,
) -> Result<Option<TableParts>, ParseFault>
    ensures { Reads (spec.table_option parts words.old) result words.new }
{
    if words.sees_word(b"TARGET_LAG") {
        words.skip();
        return Ok(Some(table_lag(alloc, words, parts)?));
    }
    if words.sees_word(b"WAREHOUSE") {
        words.skip();
        return Ok(Some(table_warehouse(alloc, words, parts)?));
    }
    if words.sees_word(b"REFRESH_MODE") {
        words.skip();
        return Ok(Some(table_mode(alloc, words, parts)?));
    }
    if words.sees_word(b"INITIALIZE") {
        words.skip();
        return Ok(Some(table_initialize(alloc, words, parts)?));
    }
    Ok(None)
}

/// All four options, and a turn that finds no more.
const TURNS: usize = 5;

fn table_parts(alloc: Global, words: &mut Words<'_>) -> Result<TableParts, ParseFault>
    ensures { Reads (spec.options_from spec.table_option 5 spec.no_table_parts words.old) result
        words.new }
{
    let first = TableParts {
        lag: None,
        warehouse: false,
        mode: None,
        initialize: None,
    };
    options(alloc, words, first, TURNS, &table_option)
}

/// The options of a dynamic table, in any order. The lag must be there.
#[tactic(auto, unfolding(crate::specs::Read::read_table_options))]
pub fn read_table_options(alloc: Global, words: &mut Words<'_>) -> Result<TableOptions, ParseFault>
    ensures reads { Reads (spec.read_table_options words.old) (seen result) words.new }
    ensures kept { OnErr result (words.new ≡ words.old) }
{
    let mut ahead = Words::new(words.rest());
    let parts = table_parts(alloc, &mut ahead)?;
    let Some(lag) = parts.lag else {
        return Err(ParseFault::SyntaxError);
    };
    *words = ahead;
    Ok(TableOptions {
        lag,
        mode: parts.mode.unwrap_or(RefreshMode::Auto),
        initialize: parts.initialize.unwrap_or(Initialize::OnCreate),
    })
}
