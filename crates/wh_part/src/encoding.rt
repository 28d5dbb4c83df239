ghost use Rattle.std.specs.Prelude.{◌≡◌, ◌++◌, map, OnOk};
ghost use Rattle.std.specs.List.{flat_map, AllByRecursion};
ghost use Rattle.wh_frame.specs.Spelling.{value_bytes, row_bytes};
ghost use Rattle.wh_part.specs.Shape.{HasWideNumber};
ghost use Rattle.wh_part.specs.View.{numbered_of};
ghost use Rattle.wh_value.specs.Appended.{Keeps};
ghost use Rattle.wh_value.specs.View.{value_of};

use crate::writing::{write_text, write_u32, write_u64};
use crate::{NumberedRow, Partition};
use std::alloc::AllocError;
use wh_value::{Bytes, Value};

#[tactic(auto, unfolding(wh_frame::specs::Spelling::value_bytes))]
fn write_value(out: &mut Bytes, value: &Value) -> Result<(), AllocError>
    ensures ok { OnOk result (out.new ≡ out.old ++ value_bytes (value_of value.now)) }
    ensures kept { Keeps out.old out.new }
{
    match value {
        Value::Null => out.push(0),
        Value::Number(number) => {
            out.push(1)?;
            out.extend(&number.to_be_bytes())
        }
        Value::Bool(false) => out.push(2),
        Value::Bool(true) => out.push(3),
        Value::Text(text) => {
            out.push(4)?;
            write_text(out, text)
        }
    }
}

/// Adds the bytes of each value, in their order.
pub fn write_values(out: &mut Bytes, values: &[Value]) -> Result<(), AllocError>
    ensures ok { OnOk result (out.new ≡ out.old ++ flat_map value_bytes (map value_of values.now)) }
    ensures kept { Keeps out.old out.new }
{
    for value in values {
        write_value(out, value)?;
    }
    Ok(())
}

#[tactic(auto, unfolding(wh_frame::specs::Spelling::row_bytes))]
fn write_row(out: &mut Bytes, numbered: &NumberedRow) -> Result<(), AllocError>
    ensures written { OnOk result (out.new ≡ out.old ++ row_bytes (numbered_of numbered.now)) }
    ensures wide { OnOk result (HasWideNumber (numbered_of numbered.now)) }
    ensures kept { Keeps out.old out.new }
{
    write_u64(out, numbered.number)?;
    write_values(out, numbered.row.values())
}

fn write_rows(out: &mut Bytes, rows: &[NumberedRow]) -> Result<(), AllocError>
    ensures written { OnOk result (out.new
        ≡ out.old ++ flat_map row_bytes (map numbered_of rows.now)) }
    ensures wide { OnOk result (AllByRecursion HasWideNumber (map numbered_of rows.now)) }
    ensures kept { Keeps out.old out.new }
{
    for numbered in rows {
        write_row(out, numbered)?;
    }
    Ok(())
}

impl Partition {
    ghost use Rattle.std.specs.Prelude.{◌≡◌, ◌++◌, OnOk, OnErr};
    ghost use Rattle.wh_frame.specs.Spelling.{partition_bytes};
    ghost use Rattle.wh_part.specs.Shape.{IsShaped};
    ghost use Rattle.wh_value.specs.Appended.{Keeps};

    /// Adds the bytes of the partition, or nothing where memory runs out.
    pub fn encode(&self, out: &mut Bytes) -> Result<(), AllocError>
        ensures written { OnOk result (out.new ≡ out.old ++ partition_bytes self.now) }
        ensures shaped { OnOk result (IsShaped self.now) }
        ensures err { OnErr result (out.new ≡ out.old) }
    {
        let count = out.len();
        let written = self.write(out);
        if written.is_err() {
            out.truncate(count);
        }
        written
    }

    fn write(&self, out: &mut Bytes) -> Result<(), AllocError>
        ensures written { OnOk result (out.new ≡ out.old ++ partition_bytes self.now) }
        ensures shaped { OnOk result (IsShaped self.now) }
        ensures kept { Keeps out.old out.new }
    {
        let rows = self.rows();
        write_u64(out, self.number())?;
        write_u32(out, rows.len() as u32)?;
        write_rows(out, rows)?;
        Ok(())
    }
}
