//! The tokens of a text.
#![tactic(auto)]

mod bytes;
mod fault;
mod front;
mod gaps;
mod lexing;
mod quotes;
mod sign;
mod token;
mod words;

pub use fault::LexFault;
pub use lexing::{text_fixes_tokens, tokens};
pub use sign::Sign;
pub use token::{Kind, Token};
