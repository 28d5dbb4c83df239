//! Tests of bags.
#![tactic(auto)]

#[cfg(test)]
mod bags;
