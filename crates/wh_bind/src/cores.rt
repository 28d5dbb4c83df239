ghost use Rattle.std.specs.Prelude.{◌≡◌, IfOk};
ghost use Rattle.wh_bind.specs.Steps.{core_over};
ghost use Rattle.wh_core_bind.specs.View.{joined_in, query_in};

use sqlite_items::Boxed;
use std::alloc::{AllocError, Global};
use wh_ast::{Expr, Item};
use wh_core_bind::{BoundQuery, Joined};

/// A core over its FROM entries.
#[tactic(auto, unfolding(crate::specs::Steps::core_over))]
pub(crate) fn bound_core(
    alloc: Global,
    items: &[Item],
    joined: Boxed<Joined>,
    filter: &Option<Expr>,
    group: &[Expr],
) -> Result<Boxed<BoundQuery>, AllocError>
    ensures { IfOk result (λ q. query_in q
        ≡ core_over items.now (joined_in joined) filter.now group.now) }
{
    let joined = joined.into_inner();
    Boxed::new(
        alloc,
        wh_core_bind::bound_core(alloc, items, joined, filter, group)?,
    )
}
