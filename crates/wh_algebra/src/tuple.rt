use wh_value::Row;

/// A row that a source keeps, or one that an operator made.
#[derive(Debug, Drop)]
pub enum Tuple<'a> {
    Kept(&'a Row),
    Made(Row),
}

impl Tuple<'_> {
    ghost use Rattle.std.specs.Prelude.{◌≡◌};
    ghost use Rattle.wh_algebra.specs.Tuple.{row_in};

    pub fn row(&self) -> &Row
        ensures { result.now ≡ row_in self.now }
    {
        match self {
            Tuple::Kept(row) => row,
            Tuple::Made(row) => row,
        }
    }
}
