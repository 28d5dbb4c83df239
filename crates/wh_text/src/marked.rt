ghost use Rattle.std.specs.Prelude.{◌≡◌, ◌<◌, ◌≤◌, ◌^◌, ℕ, Some, None, length, take, if◌then◌else◌};
ghost use Rattle.std.specs.Prelude.{IfOk, IfSome, IfErr};
ghost use Rattle.std.specs.List.{list_all};
ghost use Rattle.wh_grammar.specs.Bytes.{is_digit, number_behind};
ghost use Rattle.wh_grammar.specs.Script as scripts;
ghost use Rattle.wh_text.specs.Turn.{IsReadable};
ghost use Rattle.wh_text.specs.View.{line_view};

use crate::place::COMMAND_BYTES;
use crate::{Line, ScriptFault};
use std::alloc::Global;
use wh_value::Bytes;

/// A line that begins with `!`: a tick, a session's number, or a command.
#[tactic(auto, unfolding(wh_grammar::specs::Script::marked_line))]
pub(crate) fn marked_line(alloc: Global, text: &[u8]) -> Result<Line, ScriptFault>
    ensures line { IfOk result (λ line. line_view line ≡ scripts.marked_line text.now) }
    ensures reading { IfOk result IsReadable }
    ensures fault { IfErr result (λ fault. fault ≡ ScriptFault.OutOfMemory) }
{
    if text == b"!tick".as_slice() {
        return Ok(Line::Tick(None));
    }
    if let Some(reading) = number_after(b"!tick ", 18, text) {
        return Ok(Line::Tick(Some(reading)));
    }
    if let Some(session) = number_after(b"!session ", 9, text) {
        return Ok(Line::Session(session));
    }
    command_line(alloc, text)
}

/// A command, of a longer text its first 65,537 bytes.
pub(crate) fn command_line(alloc: Global, text: &[u8]) -> Result<Line, ScriptFault>
    ensures line { IfOk result (λ line. line_view line ≡ scripts.command_line text.now) }
    ensures reading { IfOk result IsReadable }
    ensures fault { IfErr result (λ fault. fault ≡ ScriptFault.OutOfMemory) }
{
    let count = text.len().min(COMMAND_BYTES);
    let Ok(front) = Bytes::from_slice(alloc, &text[..count]) else {
        return Err(ScriptFault::OutOfMemory);
    };
    Ok(Line::Command(front))
}

/// The number of 1 to so many digits behind a word.
fn number_after(word: &[u8], most: usize, text: &[u8]) -> Option<u64>
    requires { most ≤ 18 }
    ensures number { result ≡ scripts.number_after word.now most text.now }
    ensures small { IfSome result (λ number. number < 1000000000000000000) }
{
    if !text.starts_with(word) {
        return None;
    }
    let digits = &text[word.len()..];
    if digits.is_empty() || digits.len() > most {
        return None;
    }
    number_of(digits)
}

/// The number that digits spell.
fn number_of(digits: &[u8]) -> Option<u64>
    requires { length digits.now ≤ 18 }
    ensures number { result ≡
        if list_all is_digit digits.now then Some (number_behind 0 digits.now) else None }
    ensures small { IfSome result (λ number. number < 1000000000000000000) }
{
    let mut number: u64 = 0;
    for digit in digits {
        if !digit.is_ascii_digit() {
            return None;
        }
        number = number * 10 + u64::from(*digit - b'0');
    }
    Some(number)
}

/// A line without the CR at its end.
pub(crate) fn without_return(line: &[u8]) -> &[u8]
    ensures { result.now ≡ scripts.without_return line.now }
{
    let count = line.len();
    if count > 0 && line[count - 1] == b'\r' {
        return &line[..count - 1];
    }
    line
}
