//! What an expression stands for, case by case.
ghost use Rattle.std.specs.Prelude.{◌≡◌, ◌+◌, map, length, drop, IfOk};
ghost use Rattle.wh_ast.specs.declared.expr.Expr.{fold-Expr};
ghost use Rattle.wh_value.specs.declared.comparison.Comparison.TheVariants.{Equal};
ghost use Rattle.wh_naming.specs.Scope as scope;
ghost use Rattle.wh_naming.specs.Typing as naming;
ghost use Rattle.wh_expr_bind.specs.View.{typed_view, part_in, context_of};
ghost use Rattle.wh_expr_bind.specs.Forms.{sees};

use crate::context::Context;
use crate::count::counted;
use crate::scalars::Prefix;
use crate::{Entry, Typed, calls, column_at, forms, ranges};
use sqlite_items::Boxed;
use std::alloc::{AllocError, Global};
use wh_ast::{Expr, Operator};
use wh_value::{Comparison, Text};

/// What an expression stands for, behind that many calls.
#[tactic(auto, unfolding(crate::specs::View::part_in))]
pub fn typed(
    alloc: Global,
    x: &Expr,
    entries: &[Entry],
    takes_calls: bool,
    calls: usize,
) -> Result<Typed, AllocError>
    ensures { IfOk result (λ t. typed_view t
        ≡ naming.typed x.now (context_of entries.now takes_calls) calls) }
{
    let context = Context {
        entries,
        takes_calls,
    };
    let part = typed_in(alloc, x, context, calls)?;
    Ok(part.into_inner())
}

#[cycle(typed)]
#[tactic(auto, unfolding(wh_naming::specs::Typing::step))]
fn typed_in(
    alloc: Global,
    x: &Expr,
    context: Context,
    number: usize,
) -> Result<Boxed<Typed>, AllocError>
    ensures { IfOk result (λ t. part_in t ≡ naming.typed x.now (sees context.entry) number) }
{
    match x {
        Expr::Const(value) => forms::constant(alloc, value),
        Expr::Column(entry, name) => column(alloc, entry, name, context),
        Expr::Neg(x) => {
            let x = typed_in(alloc, x.get(), context, number)?;
            forms::prefixed(alloc, Prefix::Minus, x)
        }
        Expr::Not(x) => {
            let x = typed_in(alloc, x.get(), context, number)?;
            forms::prefixed(alloc, Prefix::Not, x)
        }
        Expr::Binary(operator, x, y) => {
            let x = typed_in(alloc, x.get(), context, number)?;
            binary(alloc, y.get(), *operator, x, context, number)
        }
        Expr::IsNull(negated, x) => {
            let x = typed_in(alloc, x.get(), context, number)?;
            forms::null_test(alloc, *negated, x)
        }
        Expr::In(negated, x, items) => {
            let x = typed_in(alloc, x.get(), context, number)?;
            let test = among(alloc, items.as_slice(), x, context, number)?;
            forms::inverted_if(alloc, *negated, test)
        }
        Expr::Between(negated, x, low, high) => {
            let x = typed_in(alloc, x.get(), context, number)?;
            let behind = number_behind(number, x.get())?;
            let low = typed_in(alloc, low.get(), context, behind)?;
            let test = up_to(alloc, high.get(), x, low, context, behind)?;
            forms::inverted_if(alloc, *negated, test)
        }
        Expr::Sum(x) => {
            let x = typed_in(alloc, x.get(), context.argument(), number)?;
            calls::sum(alloc, x, context, number)
        }
        Expr::CountRows => calls::count_rows(alloc, context, number),
        Expr::Count(x) => {
            let x = typed_in(alloc, x.get(), context.argument(), number)?;
            calls::count(alloc, x, context, number)
        }
    }
}

fn column(
    alloc: Global,
    entry: &Option<Text>,
    name: &Text,
    context: Context,
) -> Result<Boxed<Typed>, AllocError>
    ensures { IfOk result (λ t. part_in t ≡ naming.column_typed name.now
        (scope.column_at entry.now name.now (sees context.entry).entries)) }
{
    let place = column_at(alloc, entry, name, context.entries)?;
    forms::column(alloc, name, place)
}

// A typed part and the one behind an operator.
#[cycle(typed)]
fn binary(
    alloc: Global,
    second: &Expr,
    operator: Operator,
    x: Boxed<Typed>,
    context: Context,
    number: usize,
) -> Result<Boxed<Typed>, AllocError>
    ensures { IfOk result (λ t. part_in t
        ≡ naming.binary operator (part_in x) (naming.typed second.now)
        (sees context.entry) number) }
{
    let y = typed_behind(alloc, second, x.get(), context, number)?;
    forms::combined(alloc, operator, x, y)
}

// An expression behind a typed part.
#[cycle(typed)]
fn typed_behind(
    alloc: Global,
    second: &Expr,
    x: &Typed,
    context: Context,
    number: usize,
) -> Result<Boxed<Typed>, AllocError>
    ensures { IfOk result (λ t. part_in t ≡ naming.typed second.now (sees context.entry)
        (number + length (part_in x.now).calls)) }
{
    let behind = number_behind(number, x)?;
    typed_in(alloc, second, context, behind)
}

// The number of the next call behind a part.
#[tactic(auto, unfolding(crate::specs::View::part_in))]
fn number_behind(number: usize, x: &Typed) -> Result<usize, AllocError>
    ensures { IfOk result (λ n. n ≡ number + length (part_in x.now).calls) }
{
    counted(number, x.calls.len())
}

// BETWEEN, of a typed part and its least, behind which that many calls stand.
#[cycle(typed)]
fn up_to(
    alloc: Global,
    high: &Expr,
    x: Boxed<Typed>,
    low: Boxed<Typed>,
    context: Context,
    number: usize,
) -> Result<Boxed<Typed>, AllocError>
    ensures { IfOk result (λ t. part_in t ≡ naming.ranged_between (part_in x) (part_in low)
        (naming.typed high.now (sees context.entry) (number + length (part_in low).calls))) }
{
    let high = typed_behind(alloc, high, low.get(), context, number)?;
    ranges::ranged_between(alloc, x, low, high)
}

// IN: the OR of a typed part's equalities with the items.
#[cycle(typed)]
fn among(
    alloc: Global,
    items: &[Expr],
    x: Boxed<Typed>,
    context: Context,
    number: usize,
) -> Result<Boxed<Typed>, AllocError>
    ensures { IfOk result (λ t. part_in t ≡ naming.among (part_in x)
        (map (fold-Expr naming.Reading naming.step) items.now) (sees context.entry) number) }
{
    if items.is_empty() {
        return ranges::among_none(alloc, x);
    }
    let first = typed_behind(alloc, &items[0], x.get(), context, number)?;
    among_more(alloc, items, x, first, context, number)
}

// IN, of a typed part and the first item.
#[cycle(typed)]
#[tactic(auto, using(crate::proofs::ItemLemmas::more_alone))]
fn among_more(
    alloc: Global,
    items: &[Expr],
    x: Boxed<Typed>,
    first: Boxed<Typed>,
    context: Context,
    number: usize,
) -> Result<Boxed<Typed>, AllocError>
    ensures { IfOk result (λ t. part_in t ≡ naming.more_items (part_in x)
        (map (fold-Expr naming.Reading naming.step) (drop 1 items.now)) (sees context.entry) number
        (naming.compared_with Equal (part_in x) (part_in first))) }
{
    let left = forms::alone(alloc, x.get())?;
    let test = forms::compared(alloc, Comparison::Equal, x, first)?;
    more_items(alloc, items, left.get(), test, context, number)
}

// The items behind the first, behind its test.
#[cycle(typed)]
fn more_items(
    alloc: Global,
    items: &[Expr],
    left: &Typed,
    first: Boxed<Typed>,
    context: Context,
    number: usize,
) -> Result<Boxed<Typed>, AllocError>
    ensures { IfOk result (λ t. part_in t ≡ naming.more_items (part_in left.now)
        (map (fold-Expr naming.Reading naming.step) (drop 1 items.now)) (sees context.entry) number
        (part_in first)) }
{
    let mut tests = first;
    for place in 1..items.len() {
        tests = one_more(alloc, &items[place], left, tests, context, number)?;
    }
    Ok(tests)
}

// One item behind the tests so far.
#[cycle(typed)]
fn one_more(
    alloc: Global,
    item: &Expr,
    left: &Typed,
    tests: Boxed<Typed>,
    context: Context,
    number: usize,
) -> Result<Boxed<Typed>, AllocError>
    ensures { IfOk result (λ t. part_in t ≡ naming.or_equal (part_in left.now) (part_in tests)
        (naming.typed item.now (sees context.entry) (number + length (part_in tests).calls))) }
{
    let item = typed_behind(alloc, item, tests.get(), context, number)?;
    ranges::or_equal(alloc, left, tests, item)
}
