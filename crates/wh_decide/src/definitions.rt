//! What CREATE, ALTER and DROP of each kind of object have in common.
ghost use Rattle.std.specs.Prelude.{◌≡◌, ◌+◌, ◌∷◌, [], List, Some, option_map, map, IfOk};
ghost use Rattle.std.specs.List.{AllByRecursion};
ghost use Rattle.wh_reply.specs.Reply.{DdlInTransaction, Locked};
ghost use Rattle.wh_reply.specs.View.{refusal_view, reply_view};
ghost use Rattle.wh_state.specs.Act.{Act, DropsObject};
ghost use Rattle.wh_state.specs.Spelling.{IsUnderstood};
ghost use Rattle.wh_state.specs.Written.{written};
ghost use Rattle.wh_machine.specs.Tests.{first_of};
ghost use Rattle.wh_machine.specs.Sessions.{number_in};
ghost use Rattle.wh_machine.specs.Outcome.{commits, unless};
ghost use Rattle.wh_machine.specs.Definitions as machine;
ghost use Rattle.wh_machine.specs.Definitions.{defines, holder_of};
ghost use Rattle.wh_machine.specs.Tables.{one_if};
ghost use Rattle.wh_record.specs.View.{change_of};
ghost use Rattle.wh_catalog.specs.Catalog.{stored_of, state_of};
ghost use Rattle.wh_txn.specs.View.{sessions_of};
ghost use Rattle.wh_decide.specs.Decision.{answer_of};
ghost use Rattle.wh_decide.specs.Definitions.{drops_written};
ghost use Rattle.wh_decide.specs.Sight.{machine_in, Comes, IsReady};

use crate::decision::{Decision, Settlement};
use crate::limits::refused_past;
use crate::sight::Sight;
use crate::transactions::{refused_as_held, refused_in_transaction};
use std::alloc::{AllocError, Global};
use wh_catalog::Catalog;
use wh_record::{Change, Commit};
use wh_reply::{Refusal, Reply};
use wh_value::{Limit, Text};

// The first test that a CREATE, ALTER or DROP fails, around those of its own: that of a transaction
// first, and that of holds last, of the object that goes.
pub(crate) fn definition_refusal(
    sight: &Sight<'_>,
    old: Option<u32>,
    wrong: Option<Refusal>,
) -> Option<Refusal>
    ensures { option_map refusal_view result ≡ first_of (
        option_map DdlInTransaction
        (number_in (sessions_of sight.now.sessions.now) sight.now.session)
        ∷ option_map refusal_view wrong
        ∷ option_map Locked (holder_of (sessions_of sight.now.sessions.now) old)
        ∷ []) }
{
    refused_in_transaction(sight)
        .or(wrong)
        .or(refused_as_held(sight, old))
}

// Where there is no room for one object more, which may take the place of another.
pub(crate) fn count_refusal(catalog: &Catalog, replaced: Option<u32>) -> Option<Refusal>
    ensures { option_map refusal_view result
        ≡ first_of (machine.count_refusals (state_of catalog.now) (one_if replaced)) }
{
    refused_past(Limit::ObjectIds, catalog.object_count(), 1).or(refused_past(
        Limit::Objects,
        catalog.live_count(),
        more(replaced),
    ))
}

// How many live objects more there then are.
fn more(replaced: Option<u32>) -> u64
    ensures { result + one_if replaced ≡ 1 }
{
    match replaced {
        Some(_) => 0,
        None => 1,
    }
}

// The drop of an object, where there is one.
pub(crate) fn drops(alloc: Global, old: Option<u32>) -> Result<Vec<Change>, AllocError>
    ensures { IfOk result (λ changes. map change_of changes.items ≡ drops_written old) }
{
    match old {
        Some(id) => Ok(vec![in alloc; Change::Drops(id)]?),
        None => Ok(Vec::new(alloc)),
    }
}

// The commit of a CREATE, ALTER or DROP that passes each test.
pub(crate) fn defined(sight: &Sight<'_>, reply: Reply, changes: Vec<Change>) -> Decision
    ensures comes { (acts : List Act) → map change_of changes.items
        ≡ written sight.now.stamp (stored_of sight.now.catalog.now).objects acts
        → Comes sight.now result (commits (machine_in sight.now) (reply_view reply) acts) }
    ensures reply { answer_of result ≡ reply_view reply }
    ensures ready { AllByRecursion IsUnderstood (map change_of changes.items)
        → IsReady sight.now result }
{
    let stamp = sight.stamp;
    Decision::Do {
        reply,
        settlement: Settlement::Commits(Commit { stamp, changes }),
    }
}

// The commit of one whose changes are known, or its refusal, with the first test of its own that it
// fails.
pub(crate) fn tested(
    sight: &Sight<'_>,
    old: Option<u32>,
    wrong: Option<Refusal>,
    reply: Reply,
    changes: Vec<Change>,
) -> Decision
    ensures { (acts : List Act) → map change_of changes.items
        ≡ written sight.now.stamp (stored_of sight.now.catalog.now).objects acts
        → Comes sight.now result (defines (machine_in sight.now) sight.now.session old
        (unless (option_map refusal_view wrong)
        (commits (machine_in sight.now) (reply_view reply) acts))) }
{
    match definition_refusal(sight, old, wrong) {
        Some(why) => Decision::Refuse(why),
        None => defined(sight, reply, changes),
    }
}

// The drop of an object, with the first test of its own that it fails, once nobody holds it.
pub(crate) fn drop_object(
    alloc: Global,
    sight: &Sight<'_>,
    id: u32,
    wrong: Option<Refusal>,
    reply: Reply,
) -> Result<Decision, AllocError>
    ensures { IfOk result (λ decision. Comes sight.now decision
        (defines (machine_in sight.now) sight.now.session (Some id)
        (unless (option_map refusal_view wrong)
        (commits (machine_in sight.now) (reply_view reply) (DropsObject id ∷ []))))) }
{
    let changes = drops(alloc, Some(id))?;
    Ok(tested(sight, Some(id), wrong, reply, changes))
}

// Whether a name is beyond the limit.
pub(crate) fn is_long(name: &Text) -> bool
    ensures { result ≡ machine.is_long name.now }
{
    Limit::Name.bound() < name.as_bytes().len() as u64
}
