use crate::Findings;
use wh_algebra::Call;
use wh_scalar::Scalar;
use wh_value::ColumnType;

/// An expression's scalar and type, the calls in it, and what is found wrong. None as type is that
/// of NULL.
#[derive(Debug, Drop)]
pub struct Typed {
    pub scalar: Scalar,
    pub type_of: Option<ColumnType>,
    pub calls: Vec<Call>,
    pub findings: Findings,
}
