use wh_part::NumberedRow;
use wh_value::Row;

/// The rows that go, those that are changed, and those that are added, in order.
#[derive(Debug, Drop)]
pub struct Effect {
    pub removed: Vec<u64>,
    pub changed: Vec<NumberedRow>,
    pub added: Vec<Row>,
}
