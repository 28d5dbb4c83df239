//! One or more with commas between them.

ghost use Rattle.std.specs.Prelude.{◌≡◌, OnErr};
ghost use Rattle.wh_cursor.specs.Gives.{Reads};
ghost use Rattle.wh_cursor.specs.Steps.{read_name};
ghost use Rattle.wh_dml_parse.specs.Read as spec;

use sqlite_items::Items;
use std::alloc::Global;
use wh_ast::{Assignment, Expr};
use wh_cursor::{ParseFault, TokenClass, Words, listed, name};
use wh_expr_parse::{expr, exprs};
use wh_value::Text;

/// To any depth, since nothing stands inside a name.
fn one_name(alloc: Global, words: &mut Words<'_>, _depth: usize) -> Result<Text, ParseFault>
    ensures { Reads (read_name words.old) result words.new }
{
    name(alloc, words)
}

#[tactic(auto, unfolding(crate::specs::Read::read_names))]
pub fn name_list(alloc: Global, words: &mut Words<'_>) -> Result<Items<Text>, ParseFault>
    ensures reads { Reads (spec.read_names words.old) result words.new }
    ensures kept { OnErr result (words.new ≡ words.old) }
{
    listed(alloc, words, 0, &one_name)
}

/// Rows, each in its parentheses.
#[tactic(auto, unfolding(crate::specs::Read::read_values_rows))]
pub fn row_list(
    alloc: Global,
    words: &mut Words<'_>,
    depth: usize,
) -> Result<Items<Items<Expr>>, ParseFault>
    ensures { Reads (spec.read_values_rows depth words.old) result words.new }
{
    listed(alloc, words, depth, &values_row)
}

#[tactic(auto, unfolding(crate::specs::Read::read_assignments))]
pub fn assignment_list(
    alloc: Global,
    words: &mut Words<'_>,
    depth: usize,
) -> Result<Items<Assignment>, ParseFault>
    ensures { Reads (spec.read_assignments depth words.old) result words.new }
{
    listed(alloc, words, depth, &assignment)
}

/// `( expr {, expr} )`. Its parenthesis counts.
#[tactic(auto, unfolding(crate::specs::Read::read_values_row))]
pub fn values_row(
    alloc: Global,
    words: &mut Words<'_>,
    depth: usize,
) -> Result<Items<Expr>, ParseFault>
    ensures { Reads (spec.read_values_row depth words.old) result words.new }
{
    if depth == 0 {
        return Err(ParseFault::SyntaxError);
    }
    words.expect(TokenClass::LParen)?;
    let row = exprs(alloc, words, depth - 1)?;
    words.expect(TokenClass::RParen)?;
    Ok(row)
}

/// `name = expr`
#[tactic(auto, unfolding(crate::specs::Read::read_assignment))]
fn assignment(alloc: Global, words: &mut Words<'_>, depth: usize) -> Result<Assignment, ParseFault>
    ensures { Reads (spec.read_assignment depth words.old) result words.new }
{
    let column = name(alloc, words)?;
    words.expect(TokenClass::Equal)?;
    let value = expr(alloc, words, depth)?;
    Ok(Assignment { column, value })
}
