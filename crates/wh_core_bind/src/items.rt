ghost use Rattle.std.specs.Prelude.{◌≡◌, map, IfOk};
ghost use Rattle.wh_value.specs.View.{column_of};
ghost use Rattle.wh_naming.specs.Select as naming;
ghost use Rattle.wh_core_bind.specs.View.{shown_in};
ghost use Rattle.wh_expr_bind.specs.View.{entries_of};

use crate::shown::{Shown, add_item, add_star, add_unknown, nothing_shown};
use std::alloc::{AllocError, Global};
use wh_ast::{Expr, Item};
use wh_expr_bind::{Entry, columns_of_entry, typed};
use wh_value::{Column, Text};

/// What items give over the entries of their core.
pub(crate) fn all_shown(
    alloc: Global,
    entries: &[Entry],
    items: &[Item],
) -> Result<Shown, AllocError>
    ensures { IfOk result (λ s. shown_in s
        ≡ naming.all_shown (entries_of entries.now) naming.nothing_shown items.now) }
{
    let mut shown = nothing_shown(alloc);
    for item in items {
        show(alloc, entries, &mut shown, item)?;
    }
    Ok(shown)
}

fn show(alloc: Global, entries: &[Entry], shown: &mut Shown, item: &Item) -> Result<(), AllocError>
    ensures { OnOk result (shown_in shown.new
        ≡ naming.shown_with (entries_of entries.now) (shown_in shown.old) item.now) }
{
    match item {
        Item::Star => {
            let columns = all_columns(alloc, entries)?;
            add_star(alloc, shown, 0, &columns)
        }
        Item::StarOf(name) => show_star_of(alloc, entries, shown, name),
        Item::Expr(x, alias) => show_expression(alloc, entries, shown, x, alias),
    }
}

// The columns of all entries.
fn all_columns(alloc: Global, entries: &[Entry]) -> Result<Vec<Column>, AllocError>
    ensures { IfOk result (λ columns. map column_of columns.items
        ≡ naming.all_columns (entries_of entries.now)) }
{
    let mut columns = Vec::new(alloc);
    for entry in entries {
        add_columns(alloc, &mut columns, entry.columns.as_slice())?;
    }
    Ok(columns)
}

ghost use Rattle.std.specs.Prelude.{◌++◌, OnOk};

fn add_columns(alloc: Global, columns: &mut Vec<Column>, more: &[Column]) -> Result<(), AllocError>
    ensures { OnOk result (map column_of columns.new.items
        ≡ map column_of columns.old.items ++ map column_of more.now) }
{
    for column in more {
        columns.push(Column {
            name: column.name.copy(alloc)?,
            column_type: column.column_type,
        })?;
    }
    Ok(())
}

fn show_star_of(
    alloc: Global,
    entries: &[Entry],
    shown: &mut Shown,
    name: &Text,
) -> Result<(), AllocError>
    ensures { OnOk result (shown_in shown.new
        ≡ naming.with_span (shown_in shown.old) name.now
        (naming_scope.columns_of_entry name.now (entries_of entries.now))) }
{
    match columns_of_entry(name, entries)? {
        Some(span) => add_star(alloc, shown, span.from, span.columns),
        None => add_unknown(alloc, shown, name),
    }
}

ghost use Rattle.wh_naming.specs.Scope as naming_scope;
ghost use Rattle.std.specs.Prelude.{suc, length};
ghost use Rattle.wh_naming.specs.Typing as typing;

fn show_expression(
    alloc: Global,
    entries: &[Entry],
    shown: &mut Shown,
    x: &Expr,
    alias: &Option<Text>,
) -> Result<(), AllocError>
    ensures { OnOk result (shown_in shown.new
        ≡ naming.with_item (shown_in shown.old)
        (naming.output_name alias.now x.now (suc (length (shown_in shown.old).outputs)))
        (typing.typed x.now (naming.item_context (entries_of entries.now))
        (length (shown_in shown.old).calls))) }
{
    let Some(position) = shown.outputs.len().checked_add(1) else {
        return Err(AllocError);
    };
    let name = output_name(alloc, alias, x, position)?;
    let x = typed(alloc, x, entries, true, shown.calls.len())?;
    add_item(shown, name, x)
}

ghost use Rattle.wh_ast.specs.declared.expr.Expr.{out-Expr};

// The alias, or else the column's name, or else the position.
fn output_name(
    alloc: Global,
    alias: &Option<Text>,
    x: &Expr,
    position: usize,
) -> Result<Text, AllocError>
    ensures { IfOk result (λ name. name ≡ naming.output_name alias.now x.now position) }
{
    match alias {
        Some(alias) => alias.copy(alloc),
        None => own_name(alloc, x, position),
    }
}

fn own_name(alloc: Global, x: &Expr, position: usize) -> Result<Text, AllocError>
    ensures { IfOk result (λ name. name ≡ naming.name_in (out-Expr x.now) position) }
{
    match x {
        Expr::Column(_, name) => name.copy(alloc),
        _ => numbered_name(alloc, position),
    }
}

ghost use Rattle.std.specs.Prelude.{codes, decimal};

// A name of letters and digits is a text.
fn numbered_name(alloc: Global, position: usize) -> Result<Text, AllocError>
    ensures { IfOk result (λ name. name ≡ codes "COL" ++ decimal position) }
{
    let name = format!(in alloc; "COL{position}")?;
    match Text::from_bytes(alloc, name.as_bytes()) {
        Some(text) => text,
        None => Err(AllocError),
    }
}
