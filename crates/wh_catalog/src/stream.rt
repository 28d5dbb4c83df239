ghost use Rattle.std.specs.Prelude.{◌≤◌, ◌+◌, length};
ghost use Rattle.wh_value.specs.Limit.{bound};
ghost use Rattle.wh_value.specs.declared.limit.Limit.TheVariants as limits;

use wh_value::Column;

/// A stream: what was committed to a table, its source, behind the offset.
#[derive(Debug, Drop)]
pub struct StoredStream {
    pub(crate) source: u32,
    pub(crate) is_append_only: bool,
    pub(crate) offset: u64,
    pub(crate) columns: Vec<Column>,
    ghost few_columns: { length columns.items ≤ bound limits.Columns + 3 },
}

impl StoredStream {
    ghost use Rattle.std.specs.Prelude.{◌≡◌, ◌≤◌, ◌+◌, map, length};
    ghost use Rattle.wh_value.specs.View.{column_of};
    ghost use Rattle.wh_value.specs.Limit.{bound};
    ghost use Rattle.wh_value.specs.declared.limit.Limit.TheVariants as limits;
    ghost use Rattle.wh_catalog.specs.Stream.{stream_of};

    /// The id of its table.
    pub fn source(&self) -> u32
        ensures { result ≡ (stream_of self.now).source }
    {
        self.source
    }

    /// Whether it shows rows that came, and nothing else.
    pub fn is_append_only(&self) -> bool
        ensures { result ≡ (stream_of self.now).is_append_only }
    {
        self.is_append_only
    }

    /// The stamp up to which it is consumed.
    pub fn offset(&self) -> u64
        ensures { result ≡ (stream_of self.now).offset }
    {
        self.offset
    }

    /// Those of its table, and three more.
    pub fn columns(&self) -> &[Column]
        ensures columns { map column_of result.now ≡ (stream_of self.now).columns }
        ensures bounded { length result.now ≤ bound limits.Columns + 3 }
    {
        self.columns.as_slice()
    }
}
