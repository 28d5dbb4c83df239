//! Statements that keep none of their text, each behind its first word.

ghost use Rattle.std.specs.Prelude.{◌≡◌, Some};
ghost use Rattle.wh_ast.specs.declared.statement.Statement.TheVariants as statements;
ghost use Rattle.wh_cursor.specs.Gives.{Reads};
ghost use Rattle.wh_stmt_parse.specs.Plain as spec;

use crate::columns::columns;
use crate::options::{append_only, retention};
use crate::sorts::order;
use std::alloc::Global;
use wh_ast::{CreateTable, Statement};
use wh_cursor::{ParseFault, TokenClass, Words, name};
use wh_dml_parse::dml;
use wh_option_parse::{asked, lag};
use wh_query_parse::query;
use wh_value::Text;

/// How many parentheses, NOT and minus signs may stand inside one another.
pub const MOST_NESTED: usize = 64;

/// Whether `SELECT SYSTEM$STREAM_HAS_DATA (` stands here. Without the parenthesis it is a column's
/// name.
fn asks(words: &Words<'_>) -> bool
    ensures { result ≡ spec.asks words.now }
{
    let mut ahead = Words::new(words.rest());
    ahead.skip();
    if !ahead.sees_word(b"SYSTEM$STREAM_HAS_DATA") {
        return false;
    }
    ahead.skip();
    ahead.sees(TokenClass::LParen)
}

#[tactic(auto, unfolding(crate::specs::Plain::read_has_data))]
fn has_data(alloc: Global, words: &mut Words<'_>) -> Result<Statement, ParseFault>
    ensures { Reads (spec.read_has_data words.old) result words.new }
{
    words.skip();
    let name = asked(alloc, words)?;
    Ok(Statement::HasData(name))
}

#[tactic(auto, unfolding(crate::specs::Plain::read_rows))]
fn rows(alloc: Global, words: &mut Words<'_>) -> Result<Statement, ParseFault>
    ensures { Reads (spec.read_rows words.old) result words.new }
{
    let query = query(alloc, words, MOST_NESTED)?;
    let sorts = order(alloc, words)?;
    Ok(Statement::Select(query, sorts))
}

/// At SELECT.
#[tactic(auto, unfolding(crate::specs::Plain::read_select))]
pub fn select(alloc: Global, words: &mut Words<'_>) -> Result<Statement, ParseFault>
    ensures { Reads (spec.read_select words.old) result words.new }
{
    if asks(words) {
        return has_data(alloc, words);
    }
    rows(alloc, words)
}

/// INSERT, UPDATE, DELETE or MERGE.
#[tactic(auto, unfolding(crate::specs::Plain::read_change))]
pub fn change(alloc: Global, words: &mut Words<'_>) -> Result<Statement, ParseFault>
    ensures { Reads (spec.read_change words.old) result words.new }
{
    let dml = dml(alloc, words, MOST_NESTED)?;
    Ok(Statement::Dml(dml))
}

/// Behind CREATE TABLE.
#[tactic(auto, unfolding(crate::specs::Plain::read_table))]
pub fn table(alloc: Global, words: &mut Words<'_>, replace: bool) -> Result<Statement, ParseFault>
    ensures { Reads (spec.read_table replace words.old) result words.new }
{
    let name = name(alloc, words)?;
    words.expect(TokenClass::LParen)?;
    let columns = columns(alloc, words)?;
    words.expect(TokenClass::RParen)?;
    let retention = retention(words)?;
    Ok(Statement::CreateTable(CreateTable {
        replace,
        name,
        columns,
        retention,
    }))
}

/// Behind CREATE OR.
#[tactic(auto, unfolding(crate::specs::Plain::read_replacement))]
pub fn replacement(alloc: Global, words: &mut Words<'_>) -> Result<Statement, ParseFault>
    ensures { Reads (spec.read_replacement words.old) result words.new }
{
    words.expect_word(b"REPLACE")?;
    words.expect_word(b"TABLE")?;
    table(alloc, words, true)
}

/// Behind CREATE STREAM.
#[tactic(auto, unfolding(crate::specs::Plain::read_stream))]
pub fn stream(alloc: Global, words: &mut Words<'_>) -> Result<Statement, ParseFault>
    ensures { Reads (spec.read_stream words.old) result words.new }
{
    let stream = name(alloc, words)?;
    words.expect_word(b"ON")?;
    words.expect_word(b"TABLE")?;
    let table = name(alloc, words)?;
    let append_only = append_only(words)?;
    Ok(Statement::CreateStream(stream, table, append_only))
}

#[tactic(auto, unfolding(crate::specs::Plain::read_alter_task))]
fn alter_task(alloc: Global, words: &mut Words<'_>) -> Result<Statement, ParseFault>
    ensures { Reads (spec.read_alter_task words.old) result words.new }
{
    let name = name(alloc, words)?;
    if words.eat_word(b"RESUME") {
        return Ok(Statement::ResumeTask(name));
    }
    words.expect_word(b"SUSPEND")?;
    Ok(Statement::SuspendTask(name))
}

/// Behind the table's name.
#[tactic(auto, unfolding(crate::specs::Plain::read_set_lag))]
fn set_lag(alloc: Global, words: &mut Words<'_>, name: Text) -> Result<Statement, ParseFault>
    ensures { Reads (spec.read_set_lag name words.old) result words.new }
{
    words.expect_word(b"SET")?;
    words.expect_word(b"TARGET_LAG")?;
    words.expect(TokenClass::Equal)?;
    let lag = lag(alloc, words)?;
    Ok(Statement::SetTargetLag(name, lag))
}

#[tactic(auto, unfolding(crate::specs::Plain::read_alter_table))]
fn alter_table(alloc: Global, words: &mut Words<'_>) -> Result<Statement, ParseFault>
    ensures { Reads (spec.read_alter_table words.old) result words.new }
{
    words.expect_word(b"DYNAMIC")?;
    words.expect_word(b"TABLE")?;
    let name = name(alloc, words)?;
    if words.eat_word(b"RESUME") {
        return Ok(Statement::ResumeDynamicTable(name));
    }
    if words.eat_word(b"SUSPEND") {
        return Ok(Statement::SuspendDynamicTable(name));
    }
    if words.eat_word(b"REFRESH") {
        return Ok(Statement::RefreshDynamicTable(name));
    }
    set_lag(alloc, words, name)
}

/// Behind ALTER.
#[tactic(auto, unfolding(crate::specs::Plain::read_alter))]
pub fn alter(alloc: Global, words: &mut Words<'_>) -> Result<Statement, ParseFault>
    ensures { Reads (spec.read_alter words.old) result words.new }
{
    if words.eat_word(b"TASK") {
        return alter_task(alloc, words);
    }
    alter_table(alloc, words)
}

/// Behind EXECUTE.
#[tactic(auto, unfolding(crate::specs::Plain::read_execute))]
pub fn execute(alloc: Global, words: &mut Words<'_>) -> Result<Statement, ParseFault>
    ensures { Reads (spec.read_execute words.old) result words.new }
{
    words.expect_word(b"TASK")?;
    let name = name(alloc, words)?;
    Ok(Statement::ExecuteTask(name))
}

/// Behind DROP.
#[tactic(auto, unfolding(crate::specs::Plain::read_drop))]
pub fn drop(alloc: Global, words: &mut Words<'_>) -> Result<Statement, ParseFault>
    ensures { Reads (spec.read_drop words.old) result words.new }
{
    if words.eat_word(b"TABLE") {
        return Ok(Statement::DropTable(name(alloc, words)?));
    }
    if words.eat_word(b"STREAM") {
        return Ok(Statement::DropStream(name(alloc, words)?));
    }
    if words.eat_word(b"TASK") {
        return Ok(Statement::DropTask(name(alloc, words)?));
    }
    words.expect_word(b"DYNAMIC")?;
    words.expect_word(b"TABLE")?;
    Ok(Statement::DropDynamicTable(name(alloc, words)?))
}

/// Behind BEGIN: TRANSACTION, WORK, or nothing.
#[tactic(auto, unfolding(crate::specs::Plain::read_begin))]
pub fn begin(words: &mut Words<'_>) -> Statement
    ensures { spec.read_begin words.old ≡ Some (result, words.new) }
{
    if !words.eat_word(b"TRANSACTION") {
        words.eat_word(b"WORK");
    }
    Statement::Begin
}

/// Behind START.
#[tactic(auto, unfolding(crate::specs::Plain::read_start))]
pub fn start(words: &mut Words<'_>) -> Result<Statement, ParseFault>
    ensures { Reads (spec.read_start words.old) result words.new }
{
    words.expect_word(b"TRANSACTION")?;
    Ok(Statement::Begin)
}

/// Behind COMMIT.
#[tactic(auto, unfolding(crate::specs::Plain::read_ending))]
pub fn commit(words: &mut Words<'_>) -> Statement
    ensures { spec.read_ending statements.Commit words.old ≡ Some (result, words.new) }
{
    words.eat_word(b"WORK");
    Statement::Commit
}

/// Behind ROLLBACK.
#[tactic(auto, unfolding(crate::specs::Plain::read_ending))]
pub fn rollback(words: &mut Words<'_>) -> Statement
    ensures { spec.read_ending statements.Rollback words.old ≡ Some (result, words.new) }
{
    words.eat_word(b"WORK");
    Statement::Rollback
}
