use crate::dynamic::Dynamic;

/// What a schedule looks at of a dynamic table.
#[derive(Clone, Copy, Debug)]
pub struct Watched<'a> {
    pub is_live: bool,
    /// The stamp of its creation.
    pub created: u64,
    pub dynamic: &'a Dynamic,
}
