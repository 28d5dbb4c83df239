ghost use Rattle.std.specs.Prelude.{◌≡◌, option_map, IfOk};
ghost use Rattle.wh_fetch.specs.Device.{Counts};
ghost use Rattle.wh_fetch.specs.DiskFetch.{told_of, faults_of, damage_of, IsRight, GoesOn};
ghost use Rattle.wh_reply.specs.Reply.{DdlInTransaction, Locked};
ghost use Rattle.wh_reply.specs.View.{refusal_view};
ghost use Rattle.wh_machine.specs.Sessions.{number_in};
ghost use Rattle.wh_machine.specs.Definitions.{holder_of};
ghost use Rattle.wh_machine.specs.Statements as machine;
ghost use Rattle.wh_txn.specs.View.{sessions_of};
ghost use Rattle.wh_decide.specs.Sight.{machine_in, IsShown, Comes, IsReady};

use crate::decision::{Decision, Settlement};
use crate::sight::Sight;
use std::alloc::Global;
use wh_fetch::{DiskFetch, FetchFault};
use wh_reply::{Refusal, Reply};
use wh_txn::RecordFault;
use wh_world::Disk;

// What BEGIN comes to. A transaction's number is the stamp at which it begins.
pub(crate) fn begin(sight: &Sight<'_>) -> Decision
    ensures { Comes sight.now result (machine.begin (machine_in sight.now) sight.now.session) }
{
    match sight.sessions.number(sight.session) {
        Some(number) => Decision::Refuse(Refusal::TransactionOpen(number)),
        None => Decision::Do {
            reply: Reply::Begun(sight.stamp),
            settlement: Settlement::Begins(sight.session),
        },
    }
}

// What COMMIT comes to: a version of each table that was touched. One that would pass a limit is
// refused, and the transaction stays open.
#[tactic(auto, using(wh_fetch::specs::DiskFetch::goes_on, wh_fetch::specs::DiskFetch::goes_none))]
pub(crate) fn commit<D: Disk>(
    alloc: Global,
    sight: &Sight<'_>,
    fetch: &mut DiskFetch<D>,
) -> Result<Decision, FetchFault>
    requires { IsRight D.Disk fetch.old }
    ensures comes { IsShown (told_of D.Disk fetch.old) sight.now
        → IfOk result (λ decision. Comes sight.now decision
        (machine.commit (machine_in sight.now) sight.now.session)) }
    ensures ready { IfOk result (λ decision. IsReady sight.now decision) }
    ensures sound { IsShown (told_of D.Disk fetch.old) sight.now
        → damage_of fetch.new ≡ damage_of fetch.old }
    ensures same { told_of D.Disk fetch.new ≡ told_of D.Disk fetch.old }
    ensures goes { GoesOn D.Disk fetch.old fetch.new }
    ensures counts { Counts (faults_of D.Disk fetch.old) (faults_of D.Disk fetch.new) result }
{
    let session = sight.session;
    if sight.sessions.number(session).is_none() {
        return Ok(Decision::Refuse(Refusal::NoTransaction));
    }
    match sight
        .sessions
        .commit_record(alloc, sight.catalog, session, sight.stamp, fetch)
    {
        Ok(Some(commit)) => Ok(Decision::Do {
            reply: Reply::Committed(sight.stamp),
            settlement: Settlement::Ends {
                session,
                commit: Some(commit),
            },
        }),
        Ok(None) => Ok(Decision::Do {
            reply: Reply::CommittedNothing,
            settlement: Settlement::Ends {
                session,
                commit: None,
            },
        }),
        Err(RecordFault::Limit { which, .. }) => Ok(Decision::Refuse(Refusal::OverLimit(which))),
        Err(RecordFault::Read) => Err(FetchFault::Read),
        Err(RecordFault::OutOfMemory) => Err(FetchFault::OutOfMemory),
    }
}

// What ROLLBACK comes to.
pub(crate) fn rollback(sight: &Sight<'_>) -> Decision
    ensures { Comes sight.now result (machine.rollback (machine_in sight.now) sight.now.session) }
{
    match sight.sessions.number(sight.session) {
        Some(_) => Decision::Do {
            reply: Reply::RolledBack,
            settlement: Settlement::Ends {
                session: sight.session,
                commit: None,
            },
        },
        None => Decision::Refuse(Refusal::NoTransaction),
    }
}

// Where the session's transaction is open: no object is made or dropped in it.
pub(crate) fn refused_in_transaction(sight: &Sight<'_>) -> Option<Refusal>
    ensures { option_map refusal_view result ≡ option_map DdlInTransaction
        (number_in (sessions_of sight.now.sessions.now) sight.now.session) }
{
    match sight.sessions.number(sight.session) {
        Some(number) => Some(Refusal::DdlInTransaction(number)),
        None => None,
    }
}

// Where a transaction holds the object that goes, if one does.
pub(crate) fn refused_as_held(sight: &Sight<'_>, old: Option<u32>) -> Option<Refusal>
    ensures { option_map refusal_view result ≡ option_map Locked
        (holder_of (sessions_of sight.now.sessions.now) old) }
{
    match sight.sessions.holder(old?) {
        Some(number) => Some(Refusal::Locked(number)),
        None => None,
    }
}
