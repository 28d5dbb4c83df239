//! Waves of a refresh: which of its tables may be brought at once. Tables that are brought wave by
//! wave, each over those that it reads, are those that the refresh brings by rising ids.
#![tactic(auto)]

mod wave;

pub use wave::waves;
