ghost use Rattle.std.specs.Prelude.{◌≡◌, IfSome, IfNone, IfOk};
ghost use Rattle.wh_state.specs.Commit as machine;
ghost use Rattle.wh_state.specs.Spelling.{payload_of, IsCommit};
ghost use Rattle.wh_record.specs.View.{commit_of};

use crate::meaning::commit_meant;
use std::alloc::{AllocError, Global};
use wh_cursor::ParseFault;
use wh_record::{OutlinedCommit, TextCommit};

/// The commit of a record's payload, with what its texts mean. None exactly where the bytes are no
/// commit.
pub fn decode_commit(alloc: Global, payload: &[u8]) -> Option<Result<OutlinedCommit, AllocError>>
    ensures found { IfSome result (λ found. IfOk found (λ commit.
        IsCommit (commit_of commit) × (payload.now ≡ payload_of (commit_of commit)))) }
    ensures again { (c : machine.Commit) → IsCommit c → payload.now ≡ payload_of c →
        IfSome result (λ found. IfOk found (λ commit. commit_of commit ≡ c)) }
    ensures none { IfNone result ((c : machine.Commit) → IsCommit c →
        payload.now ≡ payload_of c → ⊥) }
{
    match TextCommit::decode(alloc, payload)? {
        Ok(commit) => match commit_meant(alloc, commit) {
            Ok(meant) => Some(Ok(meant)),
            Err(ParseFault::SyntaxError) => None,
            Err(ParseFault::OutOfMemory) => Some(Err(AllocError)),
        },
        Err(fault) => Some(Err(fault)),
    }
}
