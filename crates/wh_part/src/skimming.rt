//! A pass over the bytes of a partition, from which its rows aren't made.
ghost use Rattle.std.specs.Prelude.{◌≡◌, ◌+◌, map};
ghost use Rattle.wh_part.specs.Extent.{extent_of};
ghost use Rattle.wh_part.specs.Reading.{Gives};
ghost use Rattle.wh_part.specs.Skim.{start_at, starts_at, absorbs_at, row_skim_at, skims_at};
ghost use Rattle.wh_part.specs.Skim.{sketch_at};
ghost use Rattle.wh_part.specs.Sketch.{sketched};

use crate::ReadError;
use crate::decoding::read_row_count;
use crate::extent::{Extent, absorb, started};
use crate::reading::read_u64;
use crate::seen::see;
use std::alloc::Global;

#[tactic(auto, unfolding(crate::specs::Skim::start_at))]
fn start<'a>(bytes: &'a [u8]) -> Result<(Extent<'a>, &'a [u8]), ReadError>
    ensures { Gives (λ x. (extent_of x.0, x.1.now)) result (start_at bytes.now) }
{
    let (seen, rest) = see(bytes)?;
    Ok((started(seen), rest))
}

/// The values of a first row.
fn start_each<'a>(
    alloc: Global,
    width: u32,
    bytes: &'a [u8],
) -> Result<(Vec<Extent<'a>>, &'a [u8]), ReadError>
    ensures { Gives (λ x. (map extent_of x.0.items, x.1.now)) result
        (starts_at width bytes.now) }
{
    let mut extents = Vec::new(alloc);
    let mut rest = bytes;
    for _ in 0..width {
        let (extent, after) = start(rest)?;
        extents.push(extent)?;
        rest = after;
    }
    Ok((extents, rest))
}

/// The values of a further row.
fn absorb_each<'a>(extents: &mut [Extent<'a>], bytes: &'a [u8]) -> Result<&'a [u8], ReadError>
    ensures { Gives (λ rest. (map extent_of extents.new, rest.now)) result
        (absorbs_at (map extent_of extents.old) bytes.now) }
{
    let mut rest = bytes;
    for place in 0..extents.len() {
        let (seen, after) = see(rest)?;
        absorb(&mut extents[place], seen);
        rest = after;
    }
    Ok(rest)
}

/// A further row, behind the one of the last number.
#[tactic(auto, unfolding(crate::specs::Skim::row_skim_at))]
fn skim_row<'a>(
    extents: &mut [Extent<'a>],
    last: u64,
    bytes: &'a [u8],
) -> Result<(u64, &'a [u8]), ReadError>
    ensures { Gives (λ x. ((x.0 + 1, map extent_of extents.new), x.1.now)) result
        (row_skim_at (last + 1) (map extent_of extents.old) bytes.now) }
{
    let (number, rest) = read_u64(bytes)?;
    if number <= last {
        return Err(ReadError::Malformed);
    }
    let rest = absorb_each(extents, rest)?;
    Ok((number, rest))
}

/// So many further rows. The result is the number of the last one.
fn skim_rows<'a>(
    extents: &mut [Extent<'a>],
    first: u64,
    count: u32,
    bytes: &'a [u8],
) -> Result<(u64, &'a [u8]), ReadError>
    ensures { Gives (λ x. ((x.0 + 1, map extent_of extents.new), x.1.now)) result
        (skims_at count (first + 1) (map extent_of extents.old) bytes.now) }
{
    let mut last = first;
    let mut rest = bytes;
    for _ in 0..count {
        let (number, after) = skim_row(extents, last, rest)?;
        last = number;
        rest = after;
    }
    Ok((last, rest))
}

/// What a pass over a partition's bytes says of it.
#[derive(Debug, Drop)]
pub(crate) struct Sketch<'a> {
    pub number: u64,
    pub count: u32,
    pub first: u64,
    pub last: u64,
    pub extents: Vec<Extent<'a>>,
}

#[tactic(auto, unfolding(crate::specs::Skim::sketch_at))]
pub(crate) fn skim<'a>(
    alloc: Global,
    width: u32,
    bytes: &'a [u8],
) -> Result<(Sketch<'a>, &'a [u8]), ReadError>
    ensures { Gives (λ x. (sketched x.0, x.1.now)) result (sketch_at width bytes.now) }
{
    let (number, rest) = read_u64(bytes)?;
    let (count, rest) = read_row_count(rest)?;
    let (first, rest) = read_u64(rest)?;
    let (mut extents, rest) = start_each(alloc, width, rest)?;
    let (last, rest) = skim_rows(&mut extents, first, count - 1, rest)?;
    let sketch = Sketch {
        number,
        count,
        first,
        last,
        extents,
    };
    Ok((sketch, rest))
}
