ghost use Rattle.wh_regroup.specs.Laws.{SameScalarsAreEqual};

/// Two scalars are the same exactly where they are equal.
pub fn same_scalars_are_equal()
    ensures { SameScalarsAreEqual }
{}
