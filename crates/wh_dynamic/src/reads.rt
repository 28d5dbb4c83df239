ghost use Rattle.std.specs.Prelude.{◌≡◌, map, IfOk};
ghost use Rattle.wh_state.specs.Dynamic as machine;
ghost use Rattle.wh_ddl_naming.specs.Names.{names_at};
ghost use Rattle.wh_dynamic.specs.View.{source_of, query_of};

use crate::query::{DynamicQuery, NamedSource};
use std::alloc::{AllocError, Global};
use wh_ddl_naming::names_in_query;
use wh_value::Text;

/// The ids of what a query reads, in the order of its text.
#[tactic(auto, unfolding(wh_state::specs::Dynamic::ids_read))]
pub fn ids_read(alloc: Global, query: &DynamicQuery) -> Result<Vec<u32>, AllocError>
    ensures { IfOk result (λ ids. ids.items ≡ machine.ids_read (query_of query.now)) }
{
    let names = names_in_query(alloc, query.tree.get())?;
    ids_named(alloc, &query.sources, &names)
}

fn ids_named(
    alloc: Global,
    sources: &[NamedSource],
    names: &[&Text],
) -> Result<Vec<u32>, AllocError>
    ensures { IfOk result (λ ids. ids.items
        ≡ map (machine.id_named (map source_of sources.now)) (names_at names.now)) }
{
    let mut ids = Vec::new(alloc);
    for name in names {
        ids.push(id_named(sources, *name))?;
    }
    Ok(ids)
}

fn id_named(sources: &[NamedSource], name: &Text) -> u32
    ensures { result ≡ machine.id_named (map source_of sources.now) name.now }
{
    for source in sources {
        if source.name == *name {
            return source.id;
        }
    }
    0
}
