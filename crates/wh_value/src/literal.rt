ghost use Rattle.std.specs.Prelude.{◌≡◌, [], ◌∷◌, ◌++◌, OnOk, OnErr};
ghost use Rattle.std.specs.Fmt.{signed_decimal};
ghost use Rattle.std.specs.List.{flat_map};
ghost use Rattle.wh_value.specs.Appended.{Keeps};
ghost use Rattle.wh_value.specs.Value.{literal, quoted_byte};
ghost use Rattle.wh_value.specs.View.{value_of};

use crate::{Bytes, Value};
use std::alloc::AllocError;

const QUOTE: u8 = b'\'';

/// Prints a value as replies show it: a text stands in quotes, with those in it doubled.
pub fn print_literal(value: &Value, out: &mut Bytes) -> Result<(), AllocError>
    ensures ok { OnOk result (out.new ≡ out.old ++ literal (value_of value.now)) }
    ensures err { OnErr result (out.new ≡ out.old) }
{
    let count = out.len();
    let printed = put_literal(value, out);
    if printed.is_err() {
        out.truncate(count);
    }
    printed
}

fn put_literal(value: &Value, out: &mut Bytes) -> Result<(), AllocError>
    ensures ok { OnOk result (out.new ≡ out.old ++ literal (value_of value.now)) }
    ensures kept { Keeps out.old out.new }
{
    match value {
        Value::Number(number) => print_number(*number, out),
        Value::Bool(true) => out.extend(b"TRUE"),
        Value::Bool(false) => out.extend(b"FALSE"),
        Value::Text(text) => print_quoted(text.as_bytes(), out),
        Value::Null => out.extend(b"NULL"),
    }
}

fn print_number(number: i64, out: &mut Bytes) -> Result<(), AllocError>
    ensures ok { OnOk result (out.new ≡ out.old ++ signed_decimal number) }
    ensures kept { Keeps out.old out.new }
{
    if number < 0 {
        out.push(b'-')?;
    }
    out.extend_decimal(number.unsigned_abs())
}

fn print_quoted(text: &[u8], out: &mut Bytes) -> Result<(), AllocError>
    ensures ok { OnOk result (out.new ≡ out.old ++ 39 ∷ flat_map quoted_byte text.now ++ 39 ∷ []) }
    ensures kept { Keeps out.old out.new }
{
    out.push(QUOTE)?;
    for byte in text {
        if *byte == QUOTE {
            out.push(QUOTE)?;
        }
        out.push(*byte)?;
    }
    out.push(QUOTE)
}
