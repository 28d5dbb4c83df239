use sqlite_items::Boxed;
use wh_ast::Query;
use wh_value::Text;

/// An object that a query names, by its id.
#[derive(Debug, Drop)]
pub struct NamedSource {
    pub name: Text,
    pub id: u32,
}

/// The query of a dynamic table.
#[derive(Debug, Drop)]
pub struct DynamicQuery {
    pub tree: Boxed<Query>,
    /// The query as it was written.
    pub text: Text,
    /// An object for each name in FROM, in the order of the text.
    pub sources: Vec<NamedSource>,
}
