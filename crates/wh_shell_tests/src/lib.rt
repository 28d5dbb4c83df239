//! Tests of whole runs over the forms in memory.
#![tactic(auto)]

#[cfg(test)]
mod groups;
#[cfg(test)]
mod halts;
#[cfg(test)]
mod moved;
#[cfg(test)]
mod running;
#[cfg(test)]
mod runs;
#[cfg(test)]
mod spoilt;
#[cfg(test)]
mod stops;
#[cfg(test)]
mod told;
#[cfg(test)]
mod watched;
