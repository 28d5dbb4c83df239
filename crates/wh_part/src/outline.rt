use crate::contents::Contents;
use crate::extent::{Extent, Types, fits_by};
use crate::extents::{bounds_from, extents_in, types_from};
use crate::skimming::{Sketch, skim};
use crate::{PartId, PartMeta, Partition, ReadError};
use std::alloc::{AllocError, Global};
use std::marker::Model;
use wh_value::Column;

/// What is known of a partition without its rows, before it has a place in the file.
/// Contracts see the machine's partition, with its rows.
#[derive(Debug, Drop)]
pub struct Outline {
    /// Its object and its position are set where it is filed.
    meta: PartMeta,
    /// Which types all values of each column fit.
    types: Vec<Types>,
    contents: Contents,
}

impl Model for Outline {
    ghost use Rattle.wh_frame.specs.Partition as machine;
    ghost use Rattle.wh_frame.specs.Partition.{coded_partition};
    ghost use Rattle.wh_part.specs.Outline.{IsOutlineOf};

    ghost Value = { machine.Partition };

    ghost coded = { coded_partition };

    ghost view = { λ o. o.contents.partition };

    ghost invariant = { λ o. IsOutlineOf o.meta o.types.items o.contents.partition };
}

impl Outline {
    ghost use Rattle.std.specs.Prelude.{◌≡◌, ◌<◌, length, map, IfOk};
    ghost use Rattle.wh_value.specs.View.{column_of};
    ghost use Rattle.wh_frame.specs.Partition.{first_number, last_number};
    ghost use Rattle.wh_frame.specs.Spelling.{partition_bytes, RisesFrom};
    ghost use Rattle.wh_part.specs.Reading.{Gives};
    ghost use Rattle.wh_part.specs.Decoding.{partition_at};
    ghost use Rattle.wh_part.specs.Meta.{IsEven, IsMetaOf};
    ghost use Rattle.wh_part.specs.Outline.{rows_fit};

    /// Of a partition whose rows have a value for each column. `AllocError` is also the answer
    /// where its bytes are no number of 64 bits.
    pub fn of(alloc: Global, partition: &Partition) -> Result<Outline, AllocError>
        requires { IsEven partition.now.rows }
        ensures { IfOk result (λ outline. outline ≡ partition.now) }
    {
        let size = partition.size().ok_or(AllocError)?;
        let rows = partition.rows();
        let sketch = Sketch {
            number: partition.number(),
            count: rows.len() as u32,
            first: partition.first(),
            last: partition.last(),
            extents: extents_in(alloc, rows)?,
        };
        drawn(alloc, partition, &sketch, size)
    }

    /// Of the partition at the front of the bytes, each row with `width` values, and the bytes
    /// behind it. No row is made.
    pub fn read(alloc: Global, bytes: &[u8], width: u32) -> Result<(Outline, &[u8]), ReadError>
        ensures { Gives (λ x. (x.0, x.1.now)) result (partition_at width bytes.now) }
    {
        let (sketch, rest) = skim(alloc, width, bytes)?;
        let size = (bytes.len() - rest.len()) as u64;
        let outline = spelled(alloc, width, bytes, &sketch, size)?;
        Ok((outline, rest))
    }

    pub fn number(&self) -> u64
        ensures { result ≡ self.now.number }
    {
        self.meta.id.number
    }

    /// The number of the first row.
    pub fn first(&self) -> u64
        ensures { result ≡ first_number self.now.rows }
    {
        self.meta.first
    }

    /// The number of the last row. The numbers rise from the first row to it.
    pub fn last(&self) -> u64
        ensures last { result ≡ last_number self.now.rows }
        ensures some { 0 < length self.now.rows }
        ensures rising { RisesFrom 0 self.now.rows }
    {
        self.meta.last
    }

    /// How many bytes `Partition::encode` adds.
    pub fn size(&self) -> u64
        ensures { result ≡ length (partition_bytes self.now) }
    {
        self.meta.length
    }

    /// Whether each row has a value for each column, of its type.
    pub fn fits(&self, columns: &[Column]) -> bool
        ensures { result ≡ rows_fit (map column_of columns.now) self.now.rows }
    {
        types_fit(columns, &self.types)
    }

    /// What is known of it at a place of the file, and what stood in it.
    pub fn filed(self, object: u32, at: u64) -> (PartMeta, Contents)
        ensures says { IsMetaOf result.0 self }
        ensures object { result.0.id.object ≡ object }
        ensures at { result.0.at ≡ at }
        ensures length { result.0.length ≡ length (partition_bytes self) }
        ensures contents { result.1.partition ≡ self }
        ensures rising { RisesFrom 0 self.rows }
        ensures even { IsEven self.rows }
    {
        let Outline {
            mut meta,
            types: _,
            contents,
        } = self;
        meta.id.object = object;
        meta.at = at;
        (meta, contents)
    }
}

ghost use Rattle.std.specs.Prelude.{◌≡◌, map, IfOk};
ghost use Rattle.wh_frame.specs.Partition as machine;
ghost use Rattle.wh_value.specs.View.{column_of};
ghost use Rattle.wh_part.specs.Outline.{IsSketchOf, types_fit};
ghost use Rattle.wh_part.specs.Sketch.{sketched};

/// Of that partition.
fn drawn(
    alloc: Global,
    _partition: &Partition,
    sketch: &Sketch<'_>,
    size: u64,
) -> Result<Outline, AllocError>
    ghost partition: { machine.Partition }
    requires { IsSketchOf (sketched sketch.now) size partition }
    ensures { IfOk result (λ outline. outline ≡ partition) }
{
    outlined(alloc, sketch, size)
}

/// Of the partition that the bytes begin with.
fn spelled(
    alloc: Global,
    _width: u32,
    _bytes: &[u8],
    sketch: &Sketch<'_>,
    size: u64,
) -> Result<Outline, AllocError>
    ghost partition: { machine.Partition }
    requires { IsSketchOf (sketched sketch.now) size partition }
    ensures { IfOk result (λ outline. outline ≡ partition) }
{
    outlined(alloc, sketch, size)
}

/// Of whichever partition was so sketched.
fn outlined(alloc: Global, sketch: &Sketch<'_>, size: u64) -> Result<Outline, AllocError>
    ghost partition: { machine.Partition }
    requires { IsSketchOf (sketched sketch.now) size partition }
    ensures { IfOk result (λ outline. outline ≡ partition) }
{
    let columns = bounds_from(alloc, &sketch.extents)?;
    let types = types_from(alloc, &sketch.extents)?;
    let meta = PartMeta {
        id: PartId {
            object: 0,
            number: sketch.number,
        },
        at: 0,
        length: size,
        rows: sketch.count as usize,
        first: sketch.first,
        last: sketch.last,
        columns,
    };
    Ok(Outline {
        meta,
        types,
        contents: Contents::of(),
    })
}

/// Whether each column has a type that all its values fit.
fn types_fit(columns: &[Column], types: &[Types]) -> bool
    ensures { result ≡ types_fit (map column_of columns.now) types.now }
{
    if columns.len() != types.len() {
        return false;
    }
    for place in 0..columns.len() {
        if !fits_by(types[place], columns[place].column_type) {
            return false;
        }
    }
    true
}
