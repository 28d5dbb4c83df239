ghost use Rattle.std.specs.Prelude.{◌≡◌};
ghost use Rattle.std.specs.Int.{w32, w64};
ghost use Rattle.wh_part.specs.Reading.{Gives, byte_at, number_at, bytes_at, made_text_of, text_at};

use crate::ReadError;
use std::alloc::Global;
use wh_value::Text;

/// The byte at the front, and the bytes behind it.
pub fn read_byte(bytes: &[u8]) -> Result<(u8, &[u8]), ReadError>
    ensures { Gives (λ x. (x.0, x.1.now)) result (byte_at bytes.now) }
{
    match bytes {
        [] => Err(ReadError::Malformed),
        [byte, rest @ ..] => Ok((*byte, rest)),
    }
}

/// The big-endian number of four bytes at the front, and the bytes behind it.
pub fn read_u32(bytes: &[u8]) -> Result<(u32, &[u8]), ReadError>
    ensures { Gives (λ x. (x.0, x.1.now)) result (number_at w32 bytes.now) }
{
    if bytes.len() < 4 {
        return Err(ReadError::Malformed);
    }
    let (front, rest) = bytes.split_at(4);
    let number = u32::from_be_bytes([front[0], front[1], front[2], front[3]]);
    Ok((number, rest))
}

/// The big-endian number of eight bytes at the front, and the bytes behind it.
pub fn read_u64(bytes: &[u8]) -> Result<(u64, &[u8]), ReadError>
    ensures { Gives (λ x. (x.0, x.1.now)) result (number_at w64 bytes.now) }
{
    if bytes.len() < 8 {
        return Err(ReadError::Malformed);
    }
    let (front, rest) = bytes.split_at(8);
    let number = u64::from_be_bytes([
        front[0], front[1], front[2], front[3], front[4], front[5], front[6], front[7],
    ]);
    Ok((number, rest))
}

fn read_bytes(bytes: &[u8], len: u32) -> Result<(&[u8], &[u8]), ReadError>
    ensures { Gives (λ x. (x.0.now, x.1.now)) result (bytes_at len bytes.now) }
{
    let len = len as usize;
    if bytes.len() < len {
        return Err(ReadError::Malformed);
    }
    let (front, rest) = bytes.split_at(len);
    Ok((front, rest))
}

/// The text at the front, a length of four bytes and its bytes, and the bytes behind it.
#[tactic(auto, unfolding(crate::specs::Reading::text_at))]
pub fn read_text(alloc: Global, bytes: &[u8]) -> Result<(Text, &[u8]), ReadError>
    ensures { Gives (λ x. (x.0, x.1.now)) result (text_at bytes.now) }
{
    let (len, rest) = read_u32(bytes)?;
    let (front, rest) = read_bytes(rest, len)?;
    let text = made_text(alloc, front)?;
    Ok((text, rest))
}

/// The bytes of the text at the front, as `read_text` reads it, and the bytes behind it.
#[tactic(auto, unfolding(crate::specs::Reading::text_at))]
pub(crate) fn read_text_bytes(bytes: &[u8]) -> Result<(&[u8], &[u8]), ReadError>
    ensures { Gives (λ x. (x.0.now, x.1.now)) result (text_at bytes.now) }
{
    let (len, rest) = read_u32(bytes)?;
    let (front, rest) = read_bytes(rest, len)?;
    let text = tested(front)?;
    Ok((text, rest))
}

/// The bytes, if they are a text.
fn tested(bytes: &[u8]) -> Result<&[u8], ReadError>
    ensures { Gives (λ text. text.now) result (made_text_of bytes.now) }
{
    if bytes.len() > Text::MAX_BYTES {
        return Err(ReadError::Malformed);
    }
    match str::from_utf8(bytes) {
        Ok(_) => Ok(bytes),
        Err(_) => Err(ReadError::Malformed),
    }
}

fn made_text(alloc: Global, bytes: &[u8]) -> Result<Text, ReadError>
    ensures { Gives (λ text. text) result (made_text_of bytes.now) }
{
    match Text::from_bytes(alloc, bytes) {
        Some(made) => Ok(made?),
        None => Err(ReadError::Malformed),
    }
}
