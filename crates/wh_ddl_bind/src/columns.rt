ghost use Rattle.std.specs.Prelude.{◌≡◌, map, codes, nat_eq, bytes_eq, IfOk};
ghost use Rattle.std.specs.List.{list_any, starts_with};
ghost use Rattle.wh_value.specs.View.{column_of};
ghost use Rattle.wh_expr_bind.specs.View.{findings_of};
ghost use Rattle.wh_ddl_naming.specs.Tables as naming;
ghost use Rattle.wh_ddl_bind.specs.Steps.{is_taken};

use std::alloc::{AllocError, Global};
use wh_expr_bind::Findings;
use wh_value::{Column, Text};

// Names that begin so are kept for the columns of streams.
const KEPT_PREFIX: &[u8] = b"METADATA$";

/// What is found wrong with the names of new columns.
pub(crate) fn column_findings(alloc: Global, columns: &[Column]) -> Result<Findings, AllocError>
    ensures { IfOk result (λ f. findings_of f
        ≡ naming.column_findings (naming.column_names (map column_of columns.now))) }
{
    match taken_column(alloc, columns)? {
        Some(name) => Ok(Findings::taken(name)),
        None => Ok(Findings::nothing()),
    }
}

// Of the columns' names the first that comes again, or that is kept.
fn taken_column(alloc: Global, columns: &[Column]) -> Result<Option<Text>, AllocError>
    ensures { IfOk result (λ taken. taken
        ≡ naming.taken_column (naming.column_names (map column_of columns.now))) }
{
    for place in 0..columns.len() {
        let name = &columns[place].name;
        if is_taken(name, &columns[place + 1..]) {
            return Ok(Some(name.copy(alloc)?));
        }
    }
    Ok(None)
}

// Whether a name is kept, or comes again among those columns.
fn is_taken(name: &Text, columns: &[Column]) -> bool
    ensures { result ≡ is_taken name.now columns.now }
{
    is_kept(name) || is_among(name, columns)
}

fn is_kept(name: &Text) -> bool
    ensures { result ≡ naming.is_kept name.now }
{
    name.as_bytes().starts_with(KEPT_PREFIX)
}

fn is_among(name: &Text, columns: &[Column]) -> bool
    ensures { result ≡ list_any (λ column. bytes_eq name.now (column_of column).name) columns.now }
{
    columns.iter().any(|column| has_name(column, name))
}

fn has_name(column: &Column, name: &Text) -> bool
    ensures { result ≡ bytes_eq name.now (column_of column.now).name }
{
    name.as_bytes() == column.name.as_bytes()
}
