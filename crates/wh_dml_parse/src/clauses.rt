//! What MERGE does with a row that is matched, and with one that isn't.

ghost use Rattle.wh_cursor.specs.Gives.{Reads};
ghost use Rattle.wh_dml_parse.specs.Read as spec;

use crate::lists::{assignment_list, name_list, values_row};
use sqlite_items::{Boxed, Items};
use std::alloc::Global;
use wh_ast::{Expr, MergeClause};
use wh_cursor::{ParseFault, TokenClass, Words};
use wh_expr_parse::expr;
use wh_value::Text;

/// `[( name {, name} )]`
#[tactic(auto, unfolding(crate::specs::Read::read_columns))]
pub fn columns(
    alloc: Global,
    words: &mut Words<'_>,
) -> Result<Boxed<Option<Items<Text>>>, ParseFault>
    ensures { Reads (spec.read_columns words.old) result words.new }
{
    if !words.eat(TokenClass::LParen) {
        return Ok(Boxed::new(alloc, None)?);
    }
    let found = name_list(alloc, words)?;
    words.expect(TokenClass::RParen)?;
    Ok(Boxed::new(alloc, Some(found))?)
}

/// `[AND expr] THEN`
#[tactic(auto, unfolding(crate::specs::Read::read_condition))]
fn condition(
    alloc: Global,
    words: &mut Words<'_>,
    depth: usize,
) -> Result<Boxed<Option<Expr>>, ParseFault>
    ensures { Reads (spec.read_condition depth words.old) result words.new }
{
    if !words.eat_word(b"AND") {
        words.expect_word(b"THEN")?;
        return Ok(Boxed::new(alloc, None)?);
    }
    let x = Boxed::new(alloc, Some(expr(alloc, words, depth)?))?;
    words.expect_word(b"THEN")?;
    Ok(x)
}

/// Behind `WHEN MATCHED`.
#[tactic(auto, unfolding(crate::specs::Read::read_matched))]
fn matched(alloc: Global, words: &mut Words<'_>, depth: usize) -> Result<MergeClause, ParseFault>
    ensures { Reads (spec.read_matched depth words.old) result words.new }
{
    let condition = condition(alloc, words, depth)?;
    if words.eat_word(b"DELETE") {
        return Ok(MergeClause::Delete(condition.into_inner()));
    }
    words.expect_word(b"UPDATE")?;
    words.expect_word(b"SET")?;
    let set = assignment_list(alloc, words, depth)?;
    Ok(MergeClause::Update(condition.into_inner(), set))
}

/// Behind `WHEN NOT`.
#[tactic(auto, unfolding(crate::specs::Read::read_unmatched))]
fn unmatched(alloc: Global, words: &mut Words<'_>, depth: usize) -> Result<MergeClause, ParseFault>
    ensures { Reads (spec.read_unmatched depth words.old) result words.new }
{
    words.expect_word(b"MATCHED")?;
    let condition = condition(alloc, words, depth)?;
    words.expect_word(b"INSERT")?;
    let names = columns(alloc, words)?;
    words.expect_word(b"VALUES")?;
    let row = values_row(alloc, words, depth)?;
    Ok(MergeClause::Insert(condition.into_inner(), names.into_inner(), row))
}

#[tactic(auto, unfolding(crate::specs::Read::read_clause))]
fn merge_clause(
    alloc: Global,
    words: &mut Words<'_>,
    depth: usize,
) -> Result<MergeClause, ParseFault>
    ensures { Reads (spec.read_clause depth words.old) result words.new }
{
    words.expect_word(b"WHEN")?;
    if words.eat_word(b"NOT") {
        return unmatched(alloc, words, depth);
    }
    words.expect_word(b"MATCHED")?;
    matched(alloc, words, depth)
}

/// One or more. A WHEN behind a clause begins another one.
pub fn merge_clauses(
    alloc: Global,
    words: &mut Words<'_>,
    depth: usize,
) -> Result<Items<MergeClause>, ParseFault>
    ensures { Reads (spec.read_clauses depth words.old) result words.new }
{
    let mut found = Items::new(alloc);
    for _turn in 0..words.rest().len() {
        found.push(merge_clause(alloc, words, depth)?)?;
        if !words.sees_word(b"WHEN") {
            return Ok(found);
        }
    }
    Err(ParseFault::SyntaxError)
}
