ghost use Rattle.wh_commit_parse.specs.Laws.{PayloadFixesCommit, FileFixesStored};
ghost use Rattle.wh_commit_parse.specs.Laws.{FileFixesState, FirstFaultIsOne};
ghost use Rattle.wh_commit_parse.specs.Laws.{FaultyFileStandsForNone};

/// No two commits have one payload, no bytes keep two things, and none stand for two states.
pub fn spelling_fixes_commits()
    ensures payload { PayloadFixesCommit }
    ensures stored { FileFixesStored }
    ensures state { FileFixesState }
{}

/// No two positions are where a file has its first fault, and a file of more than 8 bytes that has
/// one stands for no state.
pub fn spelling_fixes_faults()
    ensures position { FirstFaultIsOne }
    ensures no_state { FaultyFileStandsForNone }
{}
