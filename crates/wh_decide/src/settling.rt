ghost use Rattle.std.specs.Prelude.{◌≡◌, ℕ, Some, None, IfOk};
ghost use Rattle.wh_fetch.specs.Device.{Counts};
ghost use Rattle.wh_fetch.specs.DiskFetch.{told_of, faults_of, damage_of, IsRight, GoesOn};
ghost use Rattle.wh_reply.specs.View.{counts_view};
ghost use Rattle.wh_bound_change.specs.View as changes;
ghost use Rattle.wh_dml.specs.View.{effect_of};
ghost use Rattle.wh_state.specs.Stored.{Stored};
ghost use Rattle.wh_machine.specs.Changes as replies;
ghost use Rattle.wh_machine.specs.Transaction as transactions;
ghost use Rattle.wh_machine.specs.Transaction.{Transaction};
ghost use Rattle.wh_machine.specs.Sessions.{Sessions, transaction_in, with_transaction};
ghost use Rattle.wh_machine.specs.Outcome.{Does};
ghost use Rattle.wh_machine.specs.Statements.{recorded};
ghost use Rattle.wh_txn.specs.Lone.{lone};
ghost use Rattle.wh_decide.specs.Decision.{Decides, CanSettle, settlement_of};
ghost use Rattle.wh_decide.specs.Sight.{machine_in, IsShown, Comes, IsReady};

use crate::decision::{Decision, Settlement};
use crate::sight::Sight;
use std::alloc::Global;
use wh_bound_change::{BoundChange, Modification};
use wh_dml::Effect;
use wh_fetch::{DiskFetch, FetchFault};
use wh_reply::{Refusal, Reply, RowCounts};
use wh_txn::{RecordFault, lone_commit};
use wh_world::Disk;

// What an effect on the target comes to outside of a transaction, by a statement that reads these
// streams: a transaction by itself.
#[tactic(auto, using(wh_fetch::specs::DiskFetch::goes_on, wh_fetch::specs::DiskFetch::goes_none))]
pub(crate) fn alone<D: Disk>(
    alloc: Global,
    sight: &Sight<'_>,
    bound: &BoundChange,
    streams: &[u32],
    effect: Effect,
    fetch: &mut DiskFetch<D>,
) -> Result<Decision, FetchFault>
    requires { IsRight D.Disk fetch.old }
    ensures comes { IsShown (told_of D.Disk fetch.old) sight.now
        → IfOk result (λ decision. Comes sight.now decision (recorded (machine_in sight.now)
        (replies.reply_to (changes.change_of bound.now.change) (effect_of effect))
        (machine_in sight.now).sessions (lone (machine_in sight.now).state sight.now.stamp
        bound.now.target streams.now (effect_of effect)))) }
    ensures ready { IfOk result (λ decision. IsReady sight.now decision) }
    ensures sound { IsShown (told_of D.Disk fetch.old) sight.now
        → damage_of fetch.new ≡ damage_of fetch.old }
    ensures same { told_of D.Disk fetch.new ≡ told_of D.Disk fetch.old }
    ensures goes { GoesOn D.Disk fetch.old fetch.new }
    ensures counts { Counts (faults_of D.Disk fetch.old) (faults_of D.Disk fetch.new) result }
{
    let counts = counts_of(&bound.change, &effect);
    let id = bound.target;
    match lone_commit(
        alloc,
        sight.catalog,
        sight.stamp,
        id,
        streams,
        effect,
        fetch,
    ) {
        Ok(Some(commit)) => Ok(Decision::Do {
            reply: Reply::Changed(counts),
            settlement: Settlement::Commits(commit),
        }),
        Ok(None) => Ok(Decision::Do {
            reply: Reply::Changed(counts),
            settlement: Settlement::Answers,
        }),
        Err(RecordFault::Limit { which, .. }) => Ok(Decision::Refuse(Refusal::OverLimit(which))),
        Err(RecordFault::Read) => Err(FetchFault::Read),
        Err(RecordFault::OutOfMemory) => Err(FetchFault::OutOfMemory),
    }
}

// What it comes to in the session's open transaction, which holds the target and the streams that
// are read from then on.
pub(crate) fn staged(
    session: u64,
    bound: &BoundChange,
    streams: Vec<u32>,
    next_row: u64,
    effect: Effect,
) -> Decision
    ensures decides { (s : Stored) (sessions : Sessions) (stamp : ℕ) (t : Transaction)
        → transaction_in sessions session ≡ Some t → Decides s sessions stamp result
        (Does (replies.reply_to (changes.change_of bound.now.change) (effect_of effect))
        (with_transaction sessions session
        (transactions.staged t bound.now.target streams.items next_row (effect_of effect))) None) }
    ensures ready { (sessions : Sessions) (stamp : ℕ) (t : Transaction)
        → transaction_in sessions session ≡ Some t
        → CanSettle sessions stamp (settlement_of result) }
{
    Decision::Do {
        reply: Reply::Changed(counts_of(&bound.change, &effect)),
        settlement: Settlement::Stages {
            session,
            id: bound.target,
            streams,
            next_row,
            effect,
        },
    }
}

// How many rows a change with that effect is told to have changed.
fn counts_of(change: &Modification, effect: &Effect) -> RowCounts
    ensures { counts_view result
        ≡ replies.counts_of (changes.change_of change.now) (effect_of effect.now) }
{
    let inserted = effect.added.len() as u64;
    let updated = effect.changed.len() as u64;
    let deleted = effect.removed.len() as u64;
    match change {
        Modification::InsertRows(_) | Modification::InsertQuery(_, _) => RowCounts::Inserted(
            inserted,
        ),
        Modification::Update(_, _) => RowCounts::Updated(updated),
        Modification::Delete(_) => RowCounts::Deleted(deleted),
        Modification::Merge(_, _, _) => RowCounts::Merged {
            inserted,
            updated,
            deleted,
        },
    }
}
