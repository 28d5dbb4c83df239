use crate::open::records_end;
use crate::{Event, Halt, Warehouse};
use std::thread::Threads;
use wh_decide::{Decision, Settlement};
use wh_fetch::{FetchFault, stays_beside};
use wh_record::Commit;
use wh_reply::{Refusal, Reply};
use wh_tick::decide;
use wh_value::Limit;
use wh_workers::Workers;
use wh_world::Disk;

impl<D: Disk> Warehouse<D> {
    ghost use Rattle.std.specs.Prelude.{◌≡◌, ◌<◌, ◌≤◌, [], None, Some, option_map};
    ghost use Rattle.std.specs.Prelude.{OnOk, IfOk, IfErr};
    ghost use Rattle.std.specs.Prelude.{Option};
    ghost use Rattle.wh_value.specs.Limit.{bound};
    ghost use Rattle.wh_value.specs.declared.limit.Limit.TheVariants as limits;
    ghost use Rattle.wh_reply.specs.View.{reply_view};
    ghost use Rattle.wh_record.specs.View.{commit_of};
    ghost use Rattle.wh_journal.specs.Journal.{limit_of, failed_of};
    ghost use Rattle.wh_state.specs.Sound.{Sound};
    ghost use Rattle.wh_state.specs.State.{stamped};
    ghost use Rattle.wh_state.specs.Commit.{Commit as MeantCommit};
    ghost use Rattle.wh_machine.specs.Step.{outcome_of};
    ghost use Rattle.wh_catalog.specs.Catalog.{stored_of, state_of};
    ghost use Rattle.wh_txn.specs.View.{sessions_of};
    ghost use Rattle.wh_txn.specs.Recording.{IsAt, IsRead};
    ghost use Rattle.wh_decide.specs.Event.{event_of};
    ghost use Rattle.wh_decide.specs.Asked.{AsksInEvent};
    ghost use Rattle.wh_decide.specs.RefreshAsked.{refresh_in, AsksAsReplied};
    ghost use Rattle.wh_decide.specs.Decision.{commit_in, sessions_after, settlement_of, answer_of};
    ghost use Rattle.wh_decide.specs.Decision.{machine_at, Decides, CanSettle};
    ghost use Rattle.wh_engine.specs.Fault.{halt_of_fetch};
    ghost use Rattle.wh_engine.specs.Warehouse.{made_in, led_to, state_with};
    ghost use Rattle.wh_engine.specs.Warehouse.{ShowsAll, IsOnlyRead, ReadsNothing};
    ghost use Rattle.wh_engine.specs.Warehouse.{ReadsOnceEach, IsBegun, fetched_of, decided_at};
    ghost use Rattle.wh_engine.specs.Answers.{Answered, CarriesOut, CarriesSome};
    ghost use Rattle.wh_engine.specs.Halts.{Halted, HaltedSome};
    ghost use Rattle.wh_engine.specs.Leaves.{Leaves};

    /// Carries out one event, and gives its reply. A halt leaves the state and the open
    /// transactions as they were; after a fault of a write or a sync the file has to be opened
    /// again.
    pub fn carry_out(&mut self, rt: &(impl Threads + Sync), event: &Event) -> Result<Reply, Halt>
        // Over a file that shows what is filed, as that of an opened warehouse does, and from a
        // sound state.
        ensures answered { ShowsAll self.old → Sound (state_of self.old.catalog)
            → IfOk result (λ reply.
            Answered self.old self.new (event_of event.now) (reply_view reply)) }
        ensures halted { ShowsAll self.old → Sound (state_of self.old.catalog)
            → IfErr result (λ halt.
            Halted self.old self.new (made_in self.old (event_of event.now)) halt) }
        ensures any_moment { Sound (state_of self.old.catalog)
            → Leaves self.old self.new (led_to self.old (event_of event.now)).state }
        // Over any disk.
        ensures carried { OnOk result (CarriesSome self.old self.new) }
        ensures stopped { IfErr result (HaltedSome self.old self.new) }
        ensures asks { AsksInEvent self.old.catalog (decided_at self.old (event_of event.now))
            (event_of event.now) [] (fetched_of self.new) }
        ensures fetches { IfOk result (λ reply. AsksAsReplied self.old.catalog
            (refresh_in (decided_at self.old (event_of event.now)) (event_of event.now))
            [] (fetched_of self.new) (reply_view reply)) }
        ensures reads { ReadsOnceEach self.old self.new }
        ensures limit { limit_of self.new.journal ≡ limit_of self.old.journal }
    {
        self.begin();
        if let Some(faults) = self.journal.failed() {
            return Err(Halt::NeedsReopen { faults });
        }
        let stamp = event.reading().max(self.catalog.last() + 1);
        if Limit::Stamp.bound() <= stamp {
            return Ok(Reply::Refused(Refusal::OverLimit(Limit::Stamp)));
        }
        let workers = Workers {
            rt,
            alloc: self.alloc,
            count: self.workers,
        };
        let decision = self.decide(&workers, stamp, event)?;
        let (reply, settlement) = decision.into_parts();
        self.settle(stamp, settlement)?;
        Ok(reply)
    }

    // A new event: no partition was asked for in it.
    fn begin(&mut self)
        ensures same { IsOnlyRead self.old self.new }
        ensures disk { self.new.fetch.disk ≡ self.old.fetch.disk }
        ensures begun { IsBegun self.new }
    {
        self.fetch.begin();
    }

    // What an event comes to at a stamp.
    fn decide<R: Threads + Sync>(
        &mut self,
        workers: &Workers<'_, R>,
        stamp: u64,
        event: &Event,
    ) -> Result<Decision, Halt>
        requires begun { IsBegun self.old }
        requires healthy { failed_of self.old.journal ≡ None }
        ensures decides { ShowsAll self.old → Sound (state_of self.old.catalog)
            → IfOk result (λ decision.
            Decides (stored_of self.new.catalog) (sessions_of self.new.sessions) stamp decision
            (outcome_of (machine_at (stamped (state_of self.new.catalog) stamp)
            (sessions_of self.new.sessions)) (event_of event.now))) }
        // Over any disk.
        ensures settles { IfOk result (λ decision. CanSettle (sessions_of self.new.sessions) stamp
            (settlement_of decision)) }
        ensures asks { AsksInEvent self.new.catalog
            (machine_at (stamped (state_of self.new.catalog) stamp) (sessions_of self.new.sessions))
            (event_of event.now) (fetched_of self.old) (fetched_of self.new) }
        ensures fetches { IfOk result (λ decision. AsksAsReplied self.new.catalog
            (refresh_in (machine_at (stamped (state_of self.new.catalog) stamp)
            (sessions_of self.new.sessions)) (event_of event.now))
            (fetched_of self.old) (fetched_of self.new) (answer_of decision)) }
        ensures same { IsOnlyRead self.old self.new }
        ensures reads { ReadsOnceEach self.old self.new }
        ensures no_fault { OnOk result
            (D.faults self.new.fetch.disk ≡ D.faults self.old.fetch.disk) }
        ensures halted { IfErr result (λ halt. (commit : Option MeantCommit) →
            Halted self.old self.new commit halt) }
    {
        match decide(
            workers,
            &self.catalog,
            &self.sessions,
            stamp,
            event,
            &mut self.fetch,
        ) {
            Ok(decision) => Ok(decision),
            Err(fault) => Err(self.unread(fault)),
        }
    }

    // Why what was asked for wasn't read.
    fn unread(&self, fault: FetchFault) -> Halt
        ensures { result ≡ halt_of_fetch fault self.now.fetch.damaged }
    {
        match (fault, self.fetch.damaged()) {
            (FetchFault::OutOfMemory, _) => Halt::OutOfMemory,
            (FetchFault::Read, None) => Halt::ReadFault,
            (FetchFault::Read, Some(at)) => Halt::Damaged { at },
        }
    }

    // Brings file, catalog and transactions to what was decided at a stamp. A transaction ends once
    // its commit is in the file.
    fn settle(&mut self, stamp: u64, settlement: Settlement) -> Result<(), Halt>
        requires healthy { failed_of self.old.journal ≡ None }
        requires later { (stored_of self.old.catalog).last ≤ stamp }
        requires within { stamp < bound limits.Stamp }
        requires settles { CanSettle (sessions_of self.old.sessions) stamp settlement }
        ensures answered { OnOk result (CarriesOut self.old self.new
            (commit_in settlement)
            (machine_at (state_with (stored_of self.old.catalog) stamp (commit_in settlement))
            (sessions_after stamp (sessions_of self.old.sessions) settlement))) }
        ensures halted { IfErr result (λ halt. Halted self.old self.new
            (commit_in settlement) halt) }
        ensures any_moment { Leaves self.old self.new (state_with (stored_of self.old.catalog)
            stamp (commit_in settlement)) }
        ensures limit { limit_of self.new.journal ≡ limit_of self.old.journal }
        ensures unread { ReadsNothing self.old self.new }
    {
        match settlement {
            Settlement::Answers => self.record(stamp, None),
            Settlement::Commits(commit) => self.record(stamp, Some(commit)),
            Settlement::Begins(session) => {
                self.catalog.pass(stamp);
                self.sessions.begin(session, stamp);
                Ok(())
            }
            Settlement::Stages {
                session,
                id,
                streams,
                next_row,
                effect,
            } => {
                self.sessions
                    .stage(self.alloc, session, id, &streams, next_row, effect)?;
                self.catalog.pass(stamp);
                Ok(())
            }
            Settlement::Ends { session, commit } => {
                self.record(stamp, commit)?;
                self.sessions.rollback(session);
                Ok(())
            }
        }
    }

    // Adds a commit, or passes the stamp where there is none.
    fn record(&mut self, stamp: u64, commit: Option<Commit>) -> Result<(), Halt>
        requires healthy { failed_of self.old.journal ≡ None }
        requires later { (stored_of self.old.catalog).last ≤ stamp }
        requires within { stamp < bound limits.Stamp }
        requires timed { IsAt stamp (option_map commit_of commit) }
        requires read { IsRead (option_map commit_of commit) }
        ensures answered { OnOk result (CarriesOut self.old self.new (option_map commit_of commit)
            (machine_at (state_with (stored_of self.old.catalog) stamp
            (option_map commit_of commit)) (sessions_of self.old.sessions))) }
        ensures halted { IfErr result (λ halt.
            Halted self.old self.new (option_map commit_of commit) halt) }
        ensures any_moment { Leaves self.old self.new
            (state_with (stored_of self.old.catalog) stamp (option_map commit_of commit)) }
        ensures limit { limit_of self.new.journal ≡ limit_of self.old.journal }
        ensures unread { ReadsNothing self.old self.new }
    {
        match commit {
            Some(commit) => self.commit(commit),
            None => {
                self.catalog.pass(stamp);
                Ok(())
            }
        }
    }

    // Carries out a commit, in the catalog first, where it can be undone, and then in the file.
    fn commit(&mut self, commit: Commit) -> Result<(), Halt>
        requires healthy { failed_of self.old.journal ≡ None }
        requires read { IsRead (Some (commit_of commit)) }
        ensures answered { OnOk result (CarriesOut self.old self.new (Some (commit_of commit))
            (machine_at (state_with (stored_of self.old.catalog) commit.stamp
            (Some (commit_of commit))) (sessions_of self.old.sessions))) }
        ensures halted { IfErr result (λ halt.
            Halted self.old self.new (Some (commit_of commit)) halt) }
        ensures any_moment { Leaves self.old self.new
            (state_with (stored_of self.old.catalog) commit.stamp (Some (commit_of commit))) }
        ensures limit { limit_of self.new.journal ≡ limit_of self.old.journal }
        ensures unread { ReadsNothing self.old self.new }
    {
        let framed = commit.encode(self.alloc)?;
        self.journal.reserve()?;
        let outlined = commit.outlined(self.alloc)?;
        let undo = self.catalog.stage(outlined, self.journal.next_place())?;
        // What is kept stands in front of the gate, and so stays right.
        stays_beside();
        match self.journal.append(&mut self.fetch.disk, &framed) {
            Ok(()) => {
                self.fetch.reach = records_end(&self.journal);
                self.catalog.settle(undo);
                Ok(())
            }
            Err(fault) => {
                self.catalog.undo(undo);
                Err(Halt::from(fault))
            }
        }
    }
}
