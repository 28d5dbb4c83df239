//! What a tick of the clock comes to, and with it what each event comes to. Nothing is changed yet.
#![tactic(auto)]

mod carrying;
mod condition;
mod deciding;
mod ends;
mod guards;
mod holding;
mod live;
mod lookups;
mod outcome;
mod running;
mod starting;
mod telling;

pub use deciding::decide;
