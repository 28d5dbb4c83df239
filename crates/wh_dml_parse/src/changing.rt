//! The statements, each behind its first word.

ghost use Rattle.wh_cursor.specs.Gives.{Reads};
ghost use Rattle.wh_dml_parse.specs.Read as spec;

use crate::clauses::{columns, merge_clauses};
use crate::lists::{assignment_list, row_list};
use sqlite_items::Boxed;
use std::alloc::Global;
use wh_ast::{Dml, Rows};
use wh_cursor::{ParseFault, Words, name};
use wh_expr_parse::expr;
use wh_query_parse::{alias, filter, query, source};

/// `VALUES row {, row}`, or a query.
#[tactic(auto, unfolding(crate::specs::Read::read_rows))]
fn rows(alloc: Global, words: &mut Words<'_>, depth: usize) -> Result<Rows, ParseFault>
    ensures { Reads (spec.read_rows depth words.old) result words.new }
{
    if words.eat_word(b"VALUES") {
        return Ok(Rows::Values(row_list(alloc, words, depth)?));
    }
    Ok(Rows::Query(query(alloc, words, depth)?))
}

#[tactic(auto, unfolding(crate::specs::Read::read_insert))]
fn insert(alloc: Global, words: &mut Words<'_>, depth: usize) -> Result<Dml, ParseFault>
    ensures { Reads (spec.read_insert depth words.old) result words.new }
{
    words.expect_word(b"INTO")?;
    let table = name(alloc, words)?;
    let names = columns(alloc, words)?;
    let found = rows(alloc, words, depth)?;
    Ok(Dml::Insert(table, names.into_inner(), found))
}

#[tactic(auto, unfolding(crate::specs::Read::read_update))]
fn update(alloc: Global, words: &mut Words<'_>, depth: usize) -> Result<Dml, ParseFault>
    ensures { Reads (spec.read_update depth words.old) result words.new }
{
    let table = name(alloc, words)?;
    words.expect_word(b"SET")?;
    let set = assignment_list(alloc, words, depth)?;
    let chosen = filter(alloc, words, depth)?;
    Ok(Dml::Update(table, set, chosen))
}

#[tactic(auto, unfolding(crate::specs::Read::read_delete))]
fn delete(alloc: Global, words: &mut Words<'_>, depth: usize) -> Result<Dml, ParseFault>
    ensures { Reads (spec.read_delete depth words.old) result words.new }
{
    words.expect_word(b"FROM")?;
    let table = name(alloc, words)?;
    let chosen = filter(alloc, words, depth)?;
    Ok(Dml::Delete(table, chosen))
}

#[tactic(auto, unfolding(crate::specs::Read::read_merge))]
fn merge(alloc: Global, words: &mut Words<'_>, depth: usize) -> Result<Dml, ParseFault>
    ensures { Reads (spec.read_merge depth words.old) result words.new }
{
    words.expect_word(b"INTO")?;
    let target = name(alloc, words)?;
    let alias = alias(alloc, words)?;
    words.expect_word(b"USING")?;
    let source = Boxed::new(alloc, source(alloc, words, depth)?)?;
    words.expect_word(b"ON")?;
    let on = Boxed::new(alloc, expr(alloc, words, depth)?)?;
    let clauses = merge_clauses(alloc, words, depth)?;
    Ok(Dml::Merge(target, alias, source.into_inner(), on.into_inner(), clauses))
}

#[tactic(auto, unfolding(crate::specs::Read::read_change))]
pub fn change(alloc: Global, words: &mut Words<'_>, depth: usize) -> Result<Dml, ParseFault>
    ensures { Reads (spec.read_change depth words.old) result words.new }
{
    if words.eat_word(b"INSERT") {
        return insert(alloc, words, depth);
    }
    if words.eat_word(b"UPDATE") {
        return update(alloc, words, depth);
    }
    if words.eat_word(b"DELETE") {
        return delete(alloc, words, depth);
    }
    if words.eat_word(b"MERGE") {
        return merge(alloc, words, depth);
    }
    Err(ParseFault::SyntaxError)
}
