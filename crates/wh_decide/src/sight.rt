use wh_catalog::Catalog;
use wh_txn::Sessions;

/// What a statement of a session is decided by. That of a task is one of session 0, which has no
/// open transaction.
#[derive(Clone, Copy, Debug)]
pub struct Sight<'a> {
    pub catalog: &'a Catalog,
    pub sessions: &'a Sessions,
    pub session: u64,
    /// The statement's.
    pub stamp: u64,
}

impl Sight<'_> {
    ghost use Rattle.std.specs.Prelude.{◌≡◌};
    ghost use Rattle.wh_machine.specs.Reading.{start_in};
    ghost use Rattle.wh_decide.specs.Sight.{machine_in};

    /// The stamp that streams are read up to: no commit lies between it and the number of the
    /// session's transaction. A statement by itself is a transaction of its own.
    #[tactic(auto, using(crate::proofs::ReadingLemmas::start_open, crate::proofs::ReadingLemmas::start_alone))]
    pub fn start(&self) -> u64
        ensures { result ≡ start_in (machine_in self.now) self.now.session }
    {
        match self.sessions.number(self.session) {
            Some(number) => number.saturating_sub(1),
            None => self.stamp.saturating_sub(1),
        }
    }
}
