//! Tests of the world of the system: files, the clock, readers and writers.
#![tactic(auto)]

#[cfg(test)]
mod clocks;
#[cfg(test)]
mod files;
#[cfg(test)]
mod inputs;
#[cfg(test)]
mod outputs;
