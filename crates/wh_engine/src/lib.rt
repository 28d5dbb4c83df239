//! The warehouse: a file, the machine's state that it stands for, and the open transactions. One
//! event is the machine's step.
#![tactic(auto)]

mod carrying;
mod fault;
mod laws;
mod open;
mod replay;
mod warehouse;

pub use fault::Halt;
pub use laws::{
    batches_are_what_was_read, commits_move_to_the_start, commits_of_events_apply,
    dynamic_tables_stand_for_one_moment, events_keep_machines_sound, held_streams_are_read_again,
    held_streams_stay, nothing_lost_nothing_twice, refreshes_bring_tables_to_their_stamp,
    refusals_change_nothing, sound_states_open_to_sound_machines,
    what_consumes_nothing_moves_nothing,
};
pub use warehouse::Warehouse;
pub use wh_decide::Event;
pub use wh_journal::OpenFault;
