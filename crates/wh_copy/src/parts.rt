//! Copies of names and columns, of lists and of what may be missing.
ghost use Rattle.std.specs.Prelude.{◌≡◌, Ok, IfOk};

use sqlite_items::Items;
use std::alloc::{AllocError, Global};
use wh_value::{Column, Text, Value};

/// What a statement is made of, in lists or where it may be missing.
pub(crate) trait Part: Drop {
    /// An equal part, with memory of its own.
    fn copied(&self, alloc: Global) -> Result<Self, AllocError>
        ensures { IfOk result (λ copy. copy ≡ self.now) };
}

impl Part for Text {
    fn copied(&self, alloc: Global) -> Result<Text, AllocError> {
        self.copy(alloc)
    }
}

impl Part for Column {
    fn copied(&self, alloc: Global) -> Result<Column, AllocError> {
        self.copy(alloc)
    }
}

impl<T: Part> Part for Option<T> {
    fn copied(&self, alloc: Global) -> Result<Option<T>, AllocError> {
        match self {
            Some(part) => Ok(Some(part.copied(alloc)?)),
            None => Ok(None),
        }
    }
}

impl<T: Part> Part for Items<T> {
    fn copied(&self, alloc: Global) -> Result<Items<T>, AllocError> {
        copy_all(alloc, self.as_slice())
    }
}

fn copy_all<T: Part>(alloc: Global, parts: &[T]) -> Result<Items<T>, AllocError>
    ensures { IfOk result (λ copies. copies ≡ parts.now) }
{
    let mut copies = Items::new(alloc);
    for part in parts {
        copies.push(part.copied(alloc)?)?;
    }
    Ok(copies)
}

pub(crate) fn copy_two<A: Part, B: Part>(
    alloc: Global,
    first: &A,
    second: &B,
) -> Result<(A, B), AllocError>
    ensures first { IfOk result (λ copies. copies.0 ≡ first.now) }
    ensures second { IfOk result (λ copies. copies.1 ≡ second.now) }
{
    let first = first.copied(alloc)?;
    let second = second.copied(alloc)?;
    Ok((first, second))
}

pub(crate) fn copy_three<A: Part, B: Part, C: Part>(
    alloc: Global,
    first: &A,
    second: &B,
    third: &C,
) -> Result<(A, B, C), AllocError>
    ensures first { IfOk result (λ copies. copies.0 ≡ first.now) }
    ensures second { IfOk result (λ copies. copies.1 ≡ second.now) }
    ensures third { IfOk result (λ copies. copies.2 ≡ third.now) }
{
    let first = first.copied(alloc)?;
    let second = second.copied(alloc)?;
    let third = third.copied(alloc)?;
    Ok((first, second, third))
}

// The first with what came of the second; if that is a fault, the first is let go.
pub(crate) fn beside<A: Drop, B>(
    first: A,
    second: Result<B, AllocError>,
) -> Result<(A, B), AllocError>
    ensures first { IfOk result (λ both. both.0 ≡ first) }
    ensures second { IfOk result (λ both. second ≡ Ok both.1) }
{
    match second {
        Ok(second) => Ok((first, second)),
        Err(fault) => Err(fault),
    }
}

pub(crate) fn copy_value(alloc: Global, value: &Value) -> Result<Value, AllocError>
    ensures { IfOk result (λ copy. copy ≡ value.now) }
{
    value.copy(alloc)
}
