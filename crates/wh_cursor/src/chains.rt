ghost use Rattle.wh_cursor.specs.Chains as spec;
ghost use Rattle.wh_cursor.specs.Chains.{Links, ReadsLinks};
ghost use Rattle.wh_cursor.specs.Gives.{Reads};

use crate::ParseFault;
use sqlite_items::Boxed;
use std::alloc::Global;

/// Joins to a first operand those behind it, as long as an operator comes next and at most so many.
/// `operator` takes an operator if one comes next, `operand` an operand, and `join` makes one of
/// two: whatever `links` they read and make, it reads what is joined by them.
pub fn joined<
    S,
    O: Drop,
    T: Drop,
    Operator: Fn(&mut S) -> Result<Option<O>, ParseFault>,
    Operand: Fn(&mut S) -> Result<Boxed<T>, ParseFault>,
    Join: Fn(O, Boxed<T>, Boxed<T>) -> T,
>(
    alloc: Global,
    tokens: &mut S,
    first: Boxed<T>,
    most: usize,
    operator: &Operator,
    operand: &Operand,
    join: &Join,
) -> Result<Boxed<T>, ParseFault>
    requires operator_callable { Operator.IsAlwaysCallable operator.now }
    requires operand_callable { Operand.IsAlwaysCallable operand.now }
    requires join_callable { Join.IsAlwaysCallable join.now }
    ensures { (links : Links S T O)
        → ReadsLinks links (Operator.post operator.now) (Operand.post operand.now)
        (Join.post join.now)
        → Reads (spec.joined links most first tokens.old) result tokens.new }
{
    let mut left = first;
    for _turn in 0..most {
        let Some(found) = operator(tokens)? else {
            return Ok(left);
        };
        let right = operand(tokens)?;
        left = Boxed::new(alloc, join(found, left, right))?;
    }
    Ok(left)
}
