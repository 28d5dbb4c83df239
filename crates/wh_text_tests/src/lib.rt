//! Tests of lines of scripts, of replies, of tokens and of sorted rows.
#![tactic(auto)]

#[cfg(test)]
mod lines;
#[cfg(test)]
mod replies;
#[cfg(test)]
mod tokens;
#[cfg(test)]
mod values;
