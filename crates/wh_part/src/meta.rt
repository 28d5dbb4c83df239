use wh_value::Value;

/// A partition's name: its table, by the object's id, and its number there.
#[derive(Clone, Copy, Debug, PartialEq, Eq)]
pub struct PartId {
    pub object: u32,
    pub number: u64,
}

/// The least and the greatest value of a column. NULL is the greatest of all.
#[derive(Debug, Drop)]
pub struct Bounds {
    pub least: Value,
    pub greatest: Value,
}

/// What is known of a partition without its rows.
#[derive(Debug, Drop)]
pub struct PartMeta {
    pub id: PartId,
    /// The position of its bytes in the file, and how many they are.
    pub at: u64,
    pub length: u64,
    /// How many rows it has, and the numbers of the first and the last.
    pub rows: usize,
    pub first: u64,
    pub last: u64,
    pub columns: Vec<Bounds>,
}
