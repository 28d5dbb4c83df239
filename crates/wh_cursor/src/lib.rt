//! A cursor over tokens, with the steps that the rules of all parsers are made of.
#![tactic(auto)]

mod chains;
mod fault;
mod key;
mod lists;
mod reading;
mod reserved;
mod steps;
mod words;

pub use chains::joined;
pub use fault::ParseFault;
pub use key::{TokenClass, binds};
pub use lists::listed;
pub use reading::{name, reading_laws, tokens_of_text};
pub use words::Words;
