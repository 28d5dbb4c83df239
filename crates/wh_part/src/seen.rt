//! Values where they stand in bytes.
ghost use Rattle.std.specs.Prelude.{◌≡◌, IfOk};
ghost use Rattle.std.specs.Ordering.{is_lt};
ghost use Rattle.wh_value.specs.Value.{value_cmp};
ghost use Rattle.wh_value.specs.View.{value_of};
ghost use Rattle.wh_part.specs.Decoding.{value_at};
ghost use Rattle.wh_part.specs.Reading.{Gives};
ghost use Rattle.wh_part.specs.Extent.{seen_value};

use crate::ReadError;
use crate::decoding::read_number;
use crate::reading::read_text_bytes;
use std::alloc::{AllocError, Global};
use wh_value::{Text, Value};

/// A value of which nothing was copied. The variants stand in the value order.
#[derive(Debug, Clone, Copy)]
pub(crate) enum Seen<'a> {
    Number(i64),
    Bool(bool),
    Text(&'a [u8]),
    Null,
}

/// The value at the front, and the bytes behind it.
#[tactic(auto, unfolding(crate::specs::Decoding::value_at))]
pub(crate) fn see<'a>(bytes: &'a [u8]) -> Result<(Seen<'a>, &'a [u8]), ReadError>
    ensures { Gives (λ x. (seen_value x.0, x.1.now)) result (value_at bytes.now) }
{
    match bytes {
        [] => Err(ReadError::Malformed),
        [0, rest @ ..] => Ok((Seen::Null, rest)),
        [1, rest @ ..] => {
            let (number, rest) = read_number(rest)?;
            Ok((Seen::Number(number), rest))
        }
        [2, rest @ ..] => Ok((Seen::Bool(false), rest)),
        [3, rest @ ..] => Ok((Seen::Bool(true), rest)),
        [4, rest @ ..] => {
            let (text, rest) = read_text_bytes(rest)?;
            Ok((Seen::Text(text), rest))
        }
        [_, ..] => Err(ReadError::Malformed),
    }
}

/// Whether a value stands before another in the value order: numbers first, which most values are.
pub(crate) fn is_less(x: Seen<'_>, y: Seen<'_>) -> bool
    ensures { result ≡ is_lt (value_cmp (seen_value x.entry) (seen_value y.entry)) }
{
    if let (Seen::Number(x), Seen::Number(y)) = (x, y) {
        return x < y;
    }
    match (x, y) {
        (Seen::Number(_), _) => true,
        (Seen::Bool(_), Seen::Number(_)) => false,
        (Seen::Bool(x), Seen::Bool(y)) => !x & y,
        (Seen::Bool(_), _) => true,
        (Seen::Text(x), Seen::Text(y)) => x.cmp(y).is_lt(),
        (Seen::Text(_), Seen::Null) => true,
        (Seen::Text(_), _) => false,
        (Seen::Null, _) => false,
    }
}

/// The value itself. The bytes of a text were tested where it was seen.
pub(crate) fn owned(alloc: Global, seen: Seen<'_>) -> Result<Value, AllocError>
    ensures { IfOk result (λ value. value_of value ≡ seen_value seen.entry) }
{
    match seen {
        Seen::Number(number) => Ok(Value::Number(number)),
        Seen::Bool(truth) => Ok(Value::Bool(truth)),
        Seen::Text(bytes) => match Text::from_bytes(alloc, bytes) {
            Some(made) => Ok(Value::Text(made?)),
            None => Err(AllocError),
        },
        Seen::Null => Ok(Value::Null),
    }
}
