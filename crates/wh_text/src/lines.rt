ghost use Rattle.std.specs.Prelude.{◌≡◌, ◌<◌, ◌≤◌, ◌+◌, ◌++◌, ◌^◌, ℕ, List, [], ◌∷◌, length, take};
ghost use Rattle.std.specs.Prelude.{Some, true};
ghost use Rattle.std.specs.Prelude.{IfOk, OnOk, IfSome, IfErr, IsErrOf, MatchOption};
ghost use Rattle.std.specs.List.{list_all};
ghost use Rattle.wh_world.specs.Told.{Rose};
ghost use Rattle.wh_text.specs.Ahead.{consumed, total};
ghost use Rattle.wh_text.specs.Fault.{FaultFits};
ghost use Rattle.wh_text.specs.Area.{is_plain};
ghost use Rattle.wh_text.specs.ScriptPlace.{lines_at, line_at, last_line_at, begun, most};
ghost use Rattle.wh_text.specs.Turn.{ahead_and, IsTurn, IsReadable};
ghost use Rattle.wh_text.specs.View.{line_view};

use crate::ahead::Ahead;
use crate::area::{Area, is_plain};
use crate::marked::{command_line, marked_line, without_return};
use crate::place::{COMMAND_BYTES, ScriptPlace};
use crate::{Line, ScriptFault};
use std::alloc::Global;
use wh_value::Bytes;
use wh_world::Source;

/// The first line of what is still to be read. `text` is where its bytes are gathered.
pub(crate) fn read_line<S: Source>(
    alloc: Global,
    ahead: &mut Ahead,
    text: &mut Bytes,
    source: &mut S,
) -> Result<Option<Line>, ScriptFault>
    requires { ahead.old.taken ≤ 2 ^ 30 }
    ensures turn { IfOk result (IsTurn (ahead_and ahead.old.bytes (S.left source.old))
        (ahead_and ahead.new.bytes (S.left source.new))) }
    ensures reading { IfOk result (λ found. IfSome found IsReadable) }
    ensures progress { IfOk result (λ found. IfSome found
        (λ line. consumed ahead.old < consumed ahead.new)) }
    ensures counts { total ahead.new (S.left source.new) ≡ total ahead.old (S.left source.old) }
    ensures short { OnOk result (ahead.new.taken ≤ 2 ^ 30) }
    ensures fault { IfErr result (λ fault. FaultFits (Some fault) ahead.new.taken) }
    ensures later { S.faults source.old ≤ S.faults source.new }
    ensures no_fault { OnOk result (S.faults source.new ≡ S.faults source.old) }
    ensures read { IsErrOf result ScriptFault.Read →
        Rose (S.faults source.old) (S.faults source.new) }
{
    text.clear();
    let mut place = ScriptPlace::Gap;
    'bytes: loop {
        let Some(byte) = ahead.take_byte(source)? else {
            let found = last_line(alloc, place, text)?;
            return Ok(found);
        };
        let Some(after) = place.next(byte) else {
            let line = ended_line(alloc, place, text)?;
            return Ok(Some(line));
        };
        place.keep(byte, text)?;
        place = after;
        take_run(place, ahead, text)?;
    }
}

/// Takes the plain bytes that are ahead, where they are a command's: they leave the place as it is.
fn take_run(place: ScriptPlace, ahead: &mut Ahead, text: &mut Bytes) -> Result<(), ScriptFault>
    requires { length text.old ≤ most place }
    ensures same { OnOk result ((rest : List ℕ) → lines_at place text.new (ahead.new.bytes ++ rest)
        ≡ lines_at place text.old (ahead.old.bytes ++ rest)) }
    ensures fits { OnOk result (length text.new ≤ most place) }
    ensures used { consumed ahead.old ≤ consumed ahead.new }
    ensures taken { ahead.new.taken ≡ ahead.old.taken }
    ensures fault { IfErr result (λ fault. fault ≡ ScriptFault.OutOfMemory) }
{
    match place {
        ScriptPlace::Command(Area::Plain) => take_plain(ahead, text),
        _ => Ok(()),
    }
}

fn take_plain(ahead: &mut Ahead, text: &mut Bytes) -> Result<(), ScriptFault>
    requires { length text.old ≤ 65537 }
    ensures same { OnOk result ((rest : List ℕ) → lines_at (ScriptPlace.Command Area.Plain)
        text.new (ahead.new.bytes ++ rest)
        ≡ lines_at (ScriptPlace.Command Area.Plain) text.old (ahead.old.bytes ++ rest)) }
    ensures fits { OnOk result (length text.new ≤ 65537) }
    ensures used { consumed ahead.old ≤ consumed ahead.new }
    ensures taken { ahead.new.taken ≡ ahead.old.taken }
    ensures fault { IfErr result (λ fault. fault ≡ ScriptFault.OutOfMemory) }
{
    let room = COMMAND_BYTES - text.len();
    let bytes = ahead.bytes();
    let count = plain_len(bytes, room);
    let Ok(()) = text.extend(&bytes[..count]) else {
        return Err(ScriptFault::OutOfMemory);
    };
    ahead.skip(count);
    Ok(())
}

/// How many bytes at the front are plain, or so many where there are more.
fn plain_len(bytes: &[u8], most: usize) -> usize
    ensures plain { list_all is_plain (take result bytes.now) ≡ true }
    ensures within { result ≤ length bytes.now }
    ensures most { result ≤ most }
{
    for (i, byte) in bytes.iter().enumerate() {
        if i == most || !is_plain(*byte) {
            return i;
        }
    }
    bytes.len()
}

/// The line that ends at a place.
fn ended_line(alloc: Global, place: ScriptPlace, text: &Bytes) -> Result<Line, ScriptFault>
    ensures line { IfOk result (λ line. line_view line ≡ line_at place text.now) }
    ensures reading { IfOk result IsReadable }
    ensures fault { IfErr result (λ fault. fault ≡ ScriptFault.OutOfMemory) }
{
    match place {
        ScriptPlace::Marked => marked_line(alloc, without_return(text.as_slice())),
        ScriptPlace::Gap
        | ScriptPlace::GapComment
        | ScriptPlace::Opening(_)
        | ScriptPlace::Command(_) => { command_line(alloc, text.as_slice()) }
    }
}

/// The line that the end of the script ends, if one does.
fn last_line(alloc: Global, place: ScriptPlace, text: &Bytes) -> Result<Option<Line>, ScriptFault>
    ensures line { IfOk result (λ found. MatchOption found
        (last_line_at place text.now ≡ [])
        (λ line. (last_line_at place text.now ≡ line_view line ∷ []) × (begun place ≡ 1))) }
    ensures reading { IfOk result (λ found. IfSome found IsReadable) }
    ensures fault { IfErr result (λ fault. fault ≡ ScriptFault.OutOfMemory) }
{
    match place {
        ScriptPlace::Gap | ScriptPlace::GapComment => Ok(None),
        ScriptPlace::Marked => {
            let line = marked_line(alloc, text.as_slice())?;
            Ok(Some(line))
        }
        ScriptPlace::Opening(_) | ScriptPlace::Command(_) => {
            let line = command_line(alloc, text.as_slice())?;
            Ok(Some(line))
        }
    }
}
