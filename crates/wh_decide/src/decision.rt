use wh_dml::Effect;
use wh_record::Commit;
use wh_reply::{Refusal, Reply};

/// What an event comes to. Nothing is changed yet.
#[derive(Debug, Drop)]
pub enum Decision {
    Refuse(Refusal),
    /// A reply, and what has to be done for it.
    Do {
        reply: Reply,
        settlement: Settlement,
    },
}

impl Decision {
    ghost use Rattle.std.specs.Prelude.{◌≡◌};
    ghost use Rattle.wh_reply.specs.View.{reply_view};
    ghost use Rattle.wh_decide.specs.Decision.{answer_of, settlement_of};

    /// The reply, and what has to be done for it: of a refusal nothing.
    pub fn into_parts(self) -> (Reply, Settlement)
        ensures reply { reply_view result.0 ≡ answer_of self }
        ensures settlement { result.1 ≡ settlement_of self }
    {
        match self {
            Decision::Refuse(why) => (Reply::Refused(why), Settlement::Answers),
            Decision::Do { reply, settlement } => (reply, settlement),
        }
    }
}

/// What becomes of the file and of the open transactions.
#[derive(Debug, Drop)]
pub enum Settlement {
    /// Nothing but the stamp passes.
    Answers,
    /// A commit, which may have no changes.
    Commits(Commit),
    /// The session's transaction begins.
    Begins(u64),
    /// The effect on a table is staged in the session's open transaction, by a statement that reads
    /// these streams.
    Stages {
        session: u64,
        id: u32,
        streams: Vec<u32>,
        next_row: u64,
        effect: Effect,
    },
    /// The session's transaction ends, with a commit where it changed or read something.
    Ends {
        session: u64,
        commit: Option<Commit>,
    },
}
