//! Tests of devices in memory, partitions and the journal.
#![tactic(auto)]

#[cfg(test)]
mod devices;
#[cfg(test)]
mod fetching;
#[cfg(test)]
mod journal;
#[cfg(test)]
mod partitions;
