ghost use Rattle.std.specs.Prelude.{◌≡◌, ◌++◌, take, ◌-◌, length, OnOk, IfErr};
ghost use Rattle.wh_text.specs.ScriptPlace as spec;

use crate::ScriptFault;
use crate::area::Area;
use wh_value::Bytes;

// the most bytes of a command that are handed on
pub(crate) const COMMAND_BYTES: usize = 65537;

// one more tells whether a marked line is longer than that without its CR
const MARKED_BYTES: usize = 65538;

/// Where the next byte of a script stands.
#[derive(Clone, Copy, Debug, PartialEq, Eq)]
pub(crate) enum ScriptPlace {
    /// Between commands.
    Gap,
    /// In a comment to the end of the line, between commands.
    GapComment,
    /// In a line that begins with `!`.
    Marked,
    /// Behind what may be a comment between commands. If that has no end, a command begins with it.
    Opening(Area),
    Command(Area),
}

impl ScriptPlace {
    /// Where the byte behind that one stands. None where it ends a marked line or a command.
    pub(crate) fn next(self, byte: u8) -> Option<ScriptPlace>
        ensures { result ≡ spec.next self byte }
    {
        match (self, byte) {
            (ScriptPlace::Gap, _) => Some(ScriptPlace::behind_gap(byte)),
            (ScriptPlace::GapComment, b'\n') => Some(ScriptPlace::Gap),
            (ScriptPlace::Marked, b'\n') => None,
            (ScriptPlace::GapComment | ScriptPlace::Marked, _) => Some(self),
            (ScriptPlace::Opening(area), _) => ScriptPlace::behind_opening(area, byte),
            (ScriptPlace::Command(area), _) => ScriptPlace::behind_command(area, byte),
        }
    }

    fn behind_gap(byte: u8) -> ScriptPlace
        ensures { result ≡ spec.behind_gap byte }
    {
        if is_gap(byte) {
            return ScriptPlace::Gap;
        }
        if byte == b'!' {
            return ScriptPlace::Marked;
        }
        if byte == b'-' {
            return ScriptPlace::Opening(Area::Minus);
        }
        if byte == b'/' {
            return ScriptPlace::Opening(Area::Slash);
        }
        ScriptPlace::Command(Area::Plain.behind(byte))
    }

    fn behind_opening(area: Area, byte: u8) -> Option<ScriptPlace>
        ensures { result ≡ spec.behind_opening area byte }
    {
        match (area, byte) {
            (Area::Minus, b'-') => Some(ScriptPlace::GapComment),
            (Area::Slash, b'*') => Some(ScriptPlace::Opening(Area::Comment)),
            (Area::Star, b'/') => Some(ScriptPlace::Gap),
            (Area::Comment | Area::Star, _) => Some(ScriptPlace::Opening(area.behind(byte))),
            _ => ScriptPlace::behind_command(area, byte),
        }
    }

    fn behind_command(area: Area, byte: u8) -> Option<ScriptPlace>
        ensures { result ≡ spec.behind_command area byte }
    {
        if area.ends(byte) {
            return None;
        }
        Some(ScriptPlace::Command(area.behind(byte)))
    }

    /// Adds a byte that stands here to the text of a command or of a marked line, or begins one
    /// with it.
    pub(crate) fn keep(self, byte: u8, text: &mut Bytes) -> Result<(), ScriptFault>
        ensures text { OnOk result (text.new ≡ spec.kept self text.old byte) }
        ensures fault { IfErr result (λ fault. fault ≡ ScriptFault.OutOfMemory) }
    {
        match self {
            ScriptPlace::Gap => {
                text.clear();
                push(byte, COMMAND_BYTES, text)
            }
            ScriptPlace::GapComment => Ok(()),
            ScriptPlace::Marked => push(byte, MARKED_BYTES, text),
            ScriptPlace::Opening(_) | ScriptPlace::Command(_) => push(byte, COMMAND_BYTES, text),
        }
    }
}

fn is_gap(byte: u8) -> bool
    ensures { result ≡ spec.is_gap byte }
{
    matches!(byte, b' ' | b'\t' | b'\r' | b'\n' | b';')
}

/// Adds a byte to a text that has not so many yet.
fn push(byte: u8, most: usize, text: &mut Bytes) -> Result<(), ScriptFault>
    ensures text { OnOk result (text.new ≡ spec.with_byte most text.old byte) }
    ensures fault { IfErr result (λ fault. fault ≡ ScriptFault.OutOfMemory) }
{
    if text.len() >= most {
        return Ok(());
    }
    let Ok(()) = text.push(byte) else {
        return Err(ScriptFault::OutOfMemory);
    };
    Ok(())
}
