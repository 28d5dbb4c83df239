//! FROM entries, and the columns of one of them.
ghost use Rattle.std.specs.Prelude.{◌≡◌, IfOk, option_map};
ghost use Rattle.wh_naming.specs.Scope as naming;
ghost use Rattle.wh_expr_bind.specs.View.{entries_of, span_of};

use crate::count::counted;
use std::alloc::AllocError;
use wh_value::{Column, Text};

/// A FROM entry: its name and its columns.
#[derive(Debug, Drop)]
pub struct Entry {
    pub name: Text,
    pub columns: Vec<Column>,
}

/// Columns with the place of the first.
#[derive(Clone, Copy, Debug)]
pub struct Span<'a> {
    pub from: usize,
    pub columns: &'a [Column],
}

/// How many columns all entries have. More than a `usize` counts is an AllocError.
pub fn width(entries: &[Entry]) -> Result<usize, AllocError>
    ensures { IfOk result (λ width. width ≡ naming.width (entries_of entries.now)) }
{
    let mut width: usize = 0;
    for entry in entries {
        width = counted(width, entry.columns.len())?;
    }
    Ok(width)
}

/// The columns of the one entry of a name.
#[tactic(auto, unfolding(wh_naming::specs::Scope::columns_of_entry))]
pub fn columns_of_entry<'a>(
    name: &Text,
    entries: &'a [Entry],
) -> Result<Option<Span<'a>>, AllocError>
    ensures { IfOk result (λ found. option_map span_of found
        ≡ naming.columns_of_entry name.now (entries_of entries.now)) }
{
    let mut found = None;
    let mut is_several = false;
    let mut from: usize = 0;
    for entry in entries {
        if entry.name == *name {
            is_several = found.is_some();
            found = Some(Span {
                from,
                columns: entry.columns.as_slice(),
            });
        }
        from = counted(from, entry.columns.len())?;
    }
    Ok(if is_several { None } else { found })
}
