use wh_bound_change::BoundChange;
use wh_expr_bind::Findings;

/// A change, and what is found wrong in its statement.
#[derive(Drop)]
pub(crate) struct Checked {
    pub bound: BoundChange,
    pub findings: Findings,
}
