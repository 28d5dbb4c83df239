ghost use Rattle.std.specs.Prelude.{◌≡◌, ◌++◌, OnOk, OnErr};
ghost use Rattle.std.specs.Int.{w32, w64, to_be_bytes};
ghost use Rattle.wh_value.specs.Appended.{Keeps};
ghost use Rattle.wh_value.specs.Value.{IsText};
ghost use Rattle.wh_frame.specs.Spelling.{text_bytes};

use std::alloc::AllocError;
use wh_value::{Bytes, Text};

/// Adds the four bytes of a number, big-endian.
pub fn write_u32(out: &mut Bytes, number: u32) -> Result<(), AllocError>
    ensures ok { OnOk result (out.new ≡ out.old ++ to_be_bytes w32 number) }
    ensures err { OnErr result (out.new ≡ out.old) }
{
    out.extend(&number.to_be_bytes())
}

/// Adds the eight bytes of a number, big-endian.
pub fn write_u64(out: &mut Bytes, number: u64) -> Result<(), AllocError>
    ensures ok { OnOk result (out.new ≡ out.old ++ to_be_bytes w64 number) }
    ensures err { OnErr result (out.new ≡ out.old) }
{
    out.extend(&number.to_be_bytes())
}

/// Adds a text: its length in four bytes, and its bytes.
pub fn write_text(out: &mut Bytes, text: &Text) -> Result<(), AllocError>
    ensures written { OnOk result (out.new ≡ out.old ++ text_bytes text.now) }
    ensures text { OnOk result (IsText text.now) }
    ensures kept { Keeps out.old out.new }
{
    let bytes = text.as_bytes();
    write_u32(out, bytes.len() as u32)?;
    out.extend(bytes)
}
