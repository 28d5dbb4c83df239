//! Decisions of a tick.
ghost use Rattle.std.specs.Prelude.{◌≡◌, [], List, map};
ghost use Rattle.std.specs.Option.{option_map_or};
ghost use Rattle.wh_reply.specs.Reply.{Idle};
ghost use Rattle.wh_reply.specs.View.{counts_view, reply_view};
ghost use Rattle.wh_state.specs.Act.{Act};
ghost use Rattle.wh_state.specs.Written.{written};
ghost use Rattle.wh_machine.specs.Outcome.{answers, commits};
ghost use Rattle.wh_machine.specs.Ticks.{counts_in};
ghost use Rattle.wh_record.specs.View.{change_of};
ghost use Rattle.wh_catalog.specs.Catalog.{stored_of};
ghost use Rattle.wh_decide.specs.Decision.{commit_in};
ghost use Rattle.wh_decide.specs.Sight.{machine_in, Comes, IsReady};
ghost use Rattle.wh_tick.specs.Changes.{AreRead};

use std::alloc::Global;
use wh_decide::{Decision, Settlement, Sight};
use wh_record::{Change, Commit};
use wh_reply::{Reply, RowCounts};

/// Nothing is due.
pub(crate) fn idle(sight: &Sight<'_>) -> Decision
    ensures comes { Comes sight.now result (answers (machine_in sight.now) Idle) }
    ensures ready { IsReady sight.now result }
{
    let _sight = sight;
    Decision::Do {
        reply: Reply::Idle,
        settlement: Settlement::Answers,
    }
}

/// A commit of changes.
pub(crate) fn committed(sight: &Sight<'_>, reply: Reply, changes: Vec<Change>) -> Decision
    ensures comes { (acts : List Act) → map change_of changes.items
        ≡ written sight.now.stamp (stored_of sight.now.catalog.now).objects acts
        → Comes sight.now result (commits (machine_in sight.now) (reply_view reply) acts) }
    ensures ready { AreRead (map change_of changes.items) → IsReady sight.now result }
{
    let stamp = sight.stamp;
    Decision::Do {
        reply,
        settlement: Settlement::Commits(Commit { stamp, changes }),
    }
}

/// The changes of the commit that a statement makes, none where it makes no commit.
pub(crate) fn changes_in(alloc: Global, settlement: Settlement) -> Vec<Change>
    ensures { map change_of result.items
        ≡ option_map_or (λ c. c.changes) (commit_in settlement) [] }
{
    match settlement {
        Settlement::Commits(commit) => changes_of(commit),
        Settlement::Ends {
            commit: Some(commit),
            ..
        } => changes_of(commit),
        _ => Vec::new(alloc),
    }
}

fn changes_of(commit: Commit) -> Vec<Change>
    ensures { map change_of result.items ≡ map change_of commit.changes.items }
{
    let Commit { changes, .. } = commit;
    changes
}

/// How many rows a statement is told to have changed.
pub(crate) fn counts_in(reply: &Reply) -> RowCounts
    ensures { counts_view result ≡ counts_in (reply_view reply.now) }
{
    match reply {
        Reply::Changed(counts) => *counts,
        _ => RowCounts::Inserted(0),
    }
}
