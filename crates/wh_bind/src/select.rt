ghost use Rattle.std.specs.Prelude.{◌≡◌, map, IfOk};
ghost use Rattle.wh_naming.specs.Select as naming;
ghost use Rattle.wh_naming.specs.View.{named_of};
ghost use Rattle.wh_core_bind.specs.View.{outputs_of};
ghost use Rattle.wh_bind.specs.Binds.{Binds};

use crate::BindFault;
use crate::binding::bind_query;
use crate::keys::all_sorted;
use std::alloc::{AllocError, Global};
use wh_algebra::Query;
use wh_ast::Sort;
use wh_core_bind::Output;
use wh_listing::SortKey;
use wh_naming::Named;
use wh_value::Text;

/// A SELECT over numbered sources.
#[derive(Debug, Drop)]
pub struct BoundSelect {
    pub query: Query,
    /// The names of the output columns.
    pub names: Vec<Text>,
    /// The ids of the sources, by their numbers.
    pub sources: Vec<u32>,
    /// The keys of ORDER BY.
    pub keys: Vec<SortKey>,
    /// Whether it, or a query in it, has more columns than the limit.
    pub is_wide: bool,
}

/// What a SELECT stands for over the objects that it may name.
#[tactic(auto, unfolding(wh_naming::specs::Select::bound_select, crate::specs::View::query_reading, wh_core_bind::specs::View::query_in))]
pub fn bind_select(
    alloc: Global,
    names: &[Named<'_>],
    query: &wh_ast::Query,
    sorts: &[Sort],
) -> Result<BoundSelect, BindFault>
    ensures { Binds result
        (naming.bound_select (map named_of names.now) query.now sorts.now) }
{
    let query = bind_query(alloc, names, 0, query)?;
    let names = names_of(alloc, &query.get().outputs)?;
    let keys = all_sorted(alloc, &query.get().outputs, sorts)?;
    let query = query.into_inner();
    let failing = query.findings.followed(keys.findings).first_failing();
    let select = BoundSelect {
        query: query.query,
        names,
        sources: query.sources,
        keys: keys.keys,
        is_wide: query.is_wide,
    };
    match failing {
        Some(failing) => {
            // One call for the prover, where each part would be dropped here by itself.
            drop(select);
            Err(BindFault::Failing(failing))
        }
        None => Ok(select),
    }
}

fn names_of(alloc: Global, outputs: &[Output]) -> Result<Vec<Text>, AllocError>
    ensures { IfOk result (λ names. names.items ≡ map (λ o. o.name) (outputs_of outputs.now)) }
{
    let mut names = Vec::new(alloc);
    for output in outputs {
        names.push(output.name.copy(alloc)?)?;
    }
    Ok(names)
}
