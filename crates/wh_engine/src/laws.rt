ghost use Rattle.wh_state.specs.State.{first_state};
ghost use Rattle.wh_state.specs.Sound.{Sound};
ghost use Rattle.wh_engine.specs.Laws.{RefusalsChangeNothing, BatchesLead, ReadsTheSame};
ghost use Rattle.wh_engine.specs.Laws.{CommitsMoveToTheStart, ChangesMoveToTheStart};
ghost use Rattle.wh_engine.specs.Laws.{CommitsConsumeWhatWasRead};
ghost use Rattle.wh_engine.specs.Laws.{ChangesHoldWhatTheyRead, ChangesConsumeWhatTheyRead};
ghost use Rattle.wh_engine.specs.Laws.{RunsConsumeWhatTheyRead, OtherTicksMoveNothing};
ghost use Rattle.wh_engine.specs.Laws.{NothingElseConsumes, OthersMoveNothing, QueriesMoveNothing};
ghost use Rattle.wh_engine.specs.Laws.{SoundStatesOpen, EventsKeepMachinesSound, HeldStreamsStay};
ghost use Rattle.wh_engine.specs.Laws.{TablesStandForOneMoment, RefreshesBringToTheStamp};
ghost use Rattle.wh_engine.specs.Laws.{CommitsApply};

/// A refused command changes nothing but the last stamp, and no transaction.
pub fn refusals_change_nothing()
    ensures { RefusalsChangeNothing }
{}

/// Of a standard stream nothing is lost, and nothing comes twice: patching the version at its first
/// offset with what the commits consumed of it, in order, gives the version at its last offset.
pub fn nothing_lost_nothing_twice()
    ensures { BatchesLead }
{}

/// As long as a transaction holds a standard stream, each of its statements reads the same of it,
/// whatever others commit.
pub fn held_streams_are_read_again()
    ensures { ReadsTheSame }
{}

/// The COMMIT of a transaction that read a stream moves it to the transaction's start, up to which
/// it was read, and never back. So does a change outside of a transaction, which is one by itself.
pub fn commits_move_to_the_start()
    ensures commits { CommitsMoveToTheStart }
    ensures changes { ChangesMoveToTheStart }
{}

/// A batch is what was read. What a COMMIT consumes of a standard stream is, row by row, what the
/// statements of its transaction read of it, from the first change on that read it and so held it;
/// a change outside of a transaction consumes what it reads itself, and so does the statement of a
/// task; nothing else consumes any of it.
pub fn batches_are_what_was_read()
    ensures commits { CommitsConsumeWhatWasRead }
    ensures holds { ChangesHoldWhatTheyRead }
    ensures changes { ChangesConsumeWhatTheyRead }
    ensures runs { RunsConsumeWhatTheyRead }
    ensures others { NothingElseConsumes }
{}

/// The state of a new file is sound.
pub fn new_files_are_sound()
    ensures { Sound first_state }
{}

/// A sound state opens to a machine that is sound, and of which no two sessions hold one stream:
/// what the laws of streams ask for. A file that runs leave stands for a sound state.
pub fn sound_states_open_to_sound_machines()
    ensures { SoundStatesOpen }
{}

/// So is each machine that events lead to.
pub fn events_keep_machines_sound()
    ensures { EventsKeepMachinesSound }
{}

/// Where no event consumes a stream, it is as it was, with its offset; no SELECT does, whatever it
/// reads, and no tick but one that carries out the statement of a task.
pub fn what_consumes_nothing_moves_nothing()
    ensures others { OthersMoveNothing }
    ensures queries { QueriesMoveNothing }
    ensures ticks { OtherTicksMoveNothing }
{}

/// A stream that an open transaction holds is moved by no event that leaves it held.
pub fn held_streams_stay()
    ensures { HeldStreamsStay }
{}

/// A dynamic table stands for one moment. Behind any events its rows are those of its query for the
/// moment that it stands for, over tables alone: each dynamic table that it reads, directly or
/// through others, is written out as its query.
pub fn dynamic_tables_stand_for_one_moment()
    ensures { TablesStandForOneMoment }
{}

/// A refresh that a statement asks for, and that isn't refused, brings its table and each dynamic
/// table that it reads, directly or through others, to the stamp of the statement.
pub fn refreshes_bring_tables_to_their_stamp()
    ensures { RefreshesBringToTheStamp }
{}

/// The commits that the events of a script make over a sound file apply, one after the other: no
/// event makes one that the file would refuse.
pub fn commits_of_events_apply()
    ensures { CommitsApply }
{}
