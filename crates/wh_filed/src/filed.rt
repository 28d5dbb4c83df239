use std::marker::Model;
use wh_part::{Contents, Outline, PartMeta};

/// A partition whose rows stand in the file, with what is known of it without them. Contracts see
/// the partition too, with its rows.
#[derive(Debug, Drop)]
pub struct FiledPartition {
    meta: PartMeta,
    contents: Contents,
}

impl Model for FiledPartition {
    ghost use Rattle.std.specs.Prelude.{vec_len};
    ghost use Rattle.wh_frame.specs.Spelling.{RisesFrom};
    ghost use Rattle.wh_part.specs.Meta.{IsMetaOf, IsEven};
    ghost use Rattle.wh_filed.specs.Filed as specs;

    ghost Value = { specs.Filed };

    ghost coded = { specs.coded_filed };

    ghost view = { λ f. record {
      object = f.meta.id.object;
      at = f.meta.at;
      length = f.meta.length;
      width = vec_len f.meta.columns;
      partition = f.contents.partition;
    } };

    ghost invariant = { λ f. IsMetaOf f.meta f.contents.partition
        × RisesFrom 0 f.contents.partition.rows × IsEven f.contents.partition.rows };
}

impl FiledPartition {
    ghost use Rattle.std.specs.Prelude.{◌≡◌, vec_len};
    ghost use Rattle.wh_frame.specs.Partition.{first_number, last_number};
    ghost use Rattle.wh_frame.specs.Spelling.{RisesFrom};
    ghost use Rattle.wh_part.specs.Meta.{IsMetaOf, IsEven};
    ghost use Rattle.wh_filed.specs.Filing.{filed_one};

    /// The partition of an outline at a position of the file. Takes no memory.
    pub fn of(outline: Outline, object: u32, at: u64) -> FiledPartition
        ensures { result ≡ filed_one object at outline }
    {
        let (meta, contents) = outline.filed(object, at);
        FiledPartition { meta, contents }
    }

    pub fn number(&self) -> u64
        ensures { result ≡ self.now.partition.number }
    {
        self.meta.id.number
    }

    /// The number of the first row.
    pub fn first(&self) -> u64
        ensures { result ≡ first_number self.now.partition.rows }
    {
        self.meta.first
    }

    /// The number of the last row. The numbers rise from the first row to it.
    pub fn last(&self) -> u64
        ensures last { result ≡ last_number self.now.partition.rows }
        ensures rising { RisesFrom 0 self.now.partition.rows }
    {
        self.meta.last
    }

    /// The position of its bytes in the file.
    pub fn at(&self) -> u64
        ensures { result ≡ self.now.at }
    {
        self.meta.at
    }

    /// What is known of it without its rows.
    pub fn meta(&self) -> &PartMeta
        ensures place { (result.now.at ≡ self.now.at) × (result.now.length ≡ self.now.length)
            × (vec_len result.now.columns ≡ self.now.width) }
        ensures object { result.now.id.object ≡ self.now.object }
        ensures says { IsMetaOf result.now self.now.partition }
        ensures even { IsEven self.now.partition.rows }
    {
        &self.meta
    }
}
