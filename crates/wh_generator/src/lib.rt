//! The script that `bench` carries out, as a source that makes its bytes as they are read.
#![tactic(auto)]

mod generator;
mod rest;
mod texts;

pub use generator::Generator;
