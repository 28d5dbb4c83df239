ghost use Rattle.std.specs.Prelude.{◌≡◌, ◌++◌, map, option_map, slice_get, IfOk, OnOk};
ghost use Rattle.std.specs.Option.{option_copied};
ghost use Rattle.wh_value.specs.View.{column_of};
ghost use Rattle.wh_naming.specs.Select as naming;
ghost use Rattle.wh_core_bind.specs.View.{output_of, outputs_of};
ghost use Rattle.wh_bind.specs.Steps.{with_other};

use sqlite_items::at;
use std::alloc::{AllocError, Global};
use wh_core_bind::Output;
use wh_expr_bind::alike;
use wh_value::{Column, ColumnType};

/// The columns of UNION ALL: names come from the first, and a type that is known in one of them is
/// known.
pub(crate) fn merged(
    alloc: Global,
    outputs: &[Output],
    others: &[Output],
) -> Result<Vec<Output>, AllocError>
    ensures { IfOk result (λ os. outputs_of os.items
        ≡ naming.merged (outputs_of outputs.now) (outputs_of others.now)) }
{
    let mut merged = Vec::new(alloc);
    for place in 0..outputs.len() {
        merged.push(merged_with(alloc, &outputs[place], at(others, place))?)?;
    }
    Ok(merged)
}

fn merged_with(alloc: Global, output: &Output, other: Option<&Output>) -> Result<Output, AllocError>
    ensures { IfOk result (λ o. output_of o
        ≡ with_other (output_of output.now) (option_map output_of (option_copied other.entry))) }
{
    let type_of = match (output.type_of, other) {
        (None, Some(other)) => other.type_of,
        (type_of, _) => type_of,
    };
    Ok(Output {
        name: output.name.copy(alloc)?,
        type_of,
    })
}

/// Whether they have the same number of columns, and the types fit each other.
pub(crate) fn fit_each_other(outputs: &[Output], others: &[Output]) -> bool
    ensures { result ≡ naming.fit_each_other (outputs_of outputs.now) (outputs_of others.now) }
{
    if outputs.len() != others.len() {
        return false;
    }
    for place in 0..outputs.len() {
        if !alike(outputs[place].type_of, others[place].type_of) {
            return false;
        }
    }
    true
}

/// The columns of a query. One that is NULL in every core is VARCHAR.
pub fn columns_of(alloc: Global, outputs: &[Output]) -> Result<Vec<Column>, AllocError>
    ensures { IfOk result (λ cs. map column_of cs.items
        ≡ map naming.column_of (outputs_of outputs.now)) }
{
    let mut columns = Vec::new(alloc);
    for output in outputs {
        columns.push(column_for(alloc, output)?)?;
    }
    Ok(columns)
}

fn column_for(alloc: Global, output: &Output) -> Result<Column, AllocError>
    ensures { IfOk result (λ c. column_of c ≡ naming.column_of (output_of output.now)) }
{
    let column_type = match output.type_of {
        Some(column_type) => column_type,
        None => ColumnType::Varchar,
    };
    let name = output.name.copy(alloc)?;
    Ok(Column { name, column_type })
}
