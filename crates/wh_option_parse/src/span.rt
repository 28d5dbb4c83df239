//! A time span in a text: a number and its unit.
ghost use Rattle.std.specs.Prelude.{◌≡◌, ◌<◌, IfOk, IfSome, option_map};
ghost use Rattle.wh_option_parse.specs.Read as spec;

use crate::bytes::{blank_count, digit_count, number_of, upper_case};
use std::alloc::{AllocError, Global};
use wh_ast::Lag;

/// A number of 1 to 9 digits, and the letters of its unit in upper case.
#[derive(Drop)]
struct Span {
    number: u64,
    unit: Vec<u8>,
}

/// The span that a text is, from its first byte to its last.
#[tactic(auto, unfolding(crate::specs::Read::span_of))]
fn read_span(alloc: Global, text: &[u8]) -> Result<Option<Span>, AllocError>
    ensures is { IfOk result (λ found. option_map (λ s. (s.number, s.unit.items)) found
        ≡ spec.span_of text.now) }
    ensures small { IfOk result (λ found. IfSome found (λ s. s.number < 1000000000)) }
{
    let count = digit_count(text);
    let (digits, behind) = (&text[..count], &text[count..]);
    let blanks = blank_count(behind);
    if digits.is_empty() || digits.len() > 9 || blanks == 0 {
        return Ok(None);
    }
    let number = number_of(digits);
    let unit = upper_case(alloc, &behind[blanks..])?;
    Ok(Some(Span { number, unit }))
}

fn is_either(unit: &[u8], one: &[u8], many: &[u8]) -> bool
    ensures { result ≡ spec.is_either unit.now one.now many.now }
{
    unit == one || unit == many
}

/// How many seconds a unit has.
fn factor(unit: &[u8]) -> Option<u64>
    ensures is { result ≡ spec.factor_of unit.now }
    ensures small { IfSome result (λ seconds. seconds < 86401) }
{
    if is_either(unit, b"SECOND", b"SECONDS") {
        return Some(1);
    }
    if is_either(unit, b"MINUTE", b"MINUTES") {
        return Some(60);
    }
    if is_either(unit, b"HOUR", b"HOURS") {
        return Some(3600);
    }
    if is_either(unit, b"DAY", b"DAYS") {
        return Some(86400);
    }
    None
}

/// The minutes of a schedule's text.
#[tactic(auto, unfolding(crate::specs::Read::schedule_of))]
pub fn schedule(alloc: Global, text: &[u8]) -> Result<Option<u64>, AllocError>
    ensures { IfOk result (λ minutes. minutes ≡ spec.schedule_of text.now) }
{
    let Some(found) = read_span(alloc, text)? else {
        return Ok(None);
    };
    if is_either(&found.unit, b"MINUTE", b"MINUTES") {
        Ok(Some(found.number))
    } else {
        Ok(None)
    }
}

/// The lag that a text says.
#[tactic(auto, unfolding(crate::specs::Read::lag_of))]
pub fn lag_text(alloc: Global, text: &[u8]) -> Result<Option<Lag>, AllocError>
    ensures { IfOk result (λ lag. lag ≡ spec.lag_of text.now) }
{
    let Some(found) = read_span(alloc, text)? else {
        return Ok(None);
    };
    match factor(&found.unit) {
        Some(seconds) => Ok(Some(Lag::Seconds(found.number * seconds))),
        None => Ok(None),
    }
}
