//! Lags, schedules, and what asks for a stream's data.
ghost use Rattle.std.specs.Prelude.{◌≡◌, false, OnErr};
ghost use Rattle.wh_cursor.specs.Gives.{Reads};
ghost use Rattle.wh_cursor.specs.Steps.{read_text};
ghost use Rattle.wh_option_parse.specs.Read as spec;

use crate::names::name_text;
use crate::span::{lag_text, schedule};
use std::alloc::Global;
use wh_ast::Lag;
use wh_cursor::{ParseFault, TokenClass, Words};
use wh_value::Text;

fn lag_by_text(alloc: Global, words: &mut Words<'_>) -> Result<Lag, ParseFault>
    ensures reads { Reads (spec.lag_from false words.old) result words.new }
    ensures kept { OnErr result (words.new ≡ words.old) }
{
    let mut ahead = Words::new(words.rest());
    let text = ahead.text(alloc)?;
    let Some(lag) = lag_text(alloc, text.as_bytes())? else {
        return Err(ParseFault::SyntaxError);
    };
    *words = ahead;
    Ok(lag)
}

/// DOWNSTREAM, or a text with a span.
#[tactic(auto, unfolding(crate::specs::Read::read_lag))]
pub fn read_lag(alloc: Global, words: &mut Words<'_>) -> Result<Lag, ParseFault>
    ensures reads { Reads (spec.read_lag words.old) result words.new }
    ensures kept { OnErr result (words.new ≡ words.old) }
{
    if words.sees_word(b"DOWNSTREAM") {
        words.skip();
        Ok(Lag::Downstream)
    } else {
        lag_by_text(alloc, words)
    }
}

/// A text with a schedule, in minutes.
#[tactic(auto, unfolding(crate::specs::Read::read_schedule))]
pub fn read_schedule(alloc: Global, words: &mut Words<'_>) -> Result<u64, ParseFault>
    ensures { Reads (spec.read_schedule words.old) result words.new }
{
    let text = words.text(alloc)?;
    match schedule(alloc, text.as_bytes())? {
        Some(minutes) => Ok(minutes),
        None => Err(ParseFault::SyntaxError),
    }
}

/// A text with a stream's name.
#[tactic(auto, unfolding(crate::specs::Read::read_name_text))]
fn read_name_text(alloc: Global, words: &mut Words<'_>) -> Result<Text, ParseFault>
    ensures { Reads (spec.read_name_text words.old) result words.new }
{
    let text = words.text(alloc)?;
    name_text(alloc, &text)
}

/// `SYSTEM$STREAM_HAS_DATA ( text )`
#[tactic(auto, unfolding(crate::specs::Read::read_asked))]
pub fn read_asked(alloc: Global, words: &mut Words<'_>) -> Result<Text, ParseFault>
    ensures reads { Reads (spec.read_asked words.old) result words.new }
    ensures kept { OnErr result (words.new ≡ words.old) }
{
    let mut ahead = Words::new(words.rest());
    ahead.expect_word(b"SYSTEM$STREAM_HAS_DATA")?;
    ahead.expect(TokenClass::LParen)?;
    let name = read_name_text(alloc, &mut ahead)?;
    ahead.expect(TokenClass::RParen)?;
    *words = ahead;
    Ok(name)
}
