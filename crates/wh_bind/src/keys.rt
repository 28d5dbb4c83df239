ghost use Rattle.std.specs.Prelude.{◌≡◌, [], None, Some, false, decimal, IfOk, OnOk};
ghost use Rattle.wh_naming.specs.Scope.{only};
ghost use Rattle.wh_naming.specs.Select as naming;
ghost use Rattle.wh_core_bind.specs.View.{outputs_of};
ghost use Rattle.wh_bind.specs.Steps.{nothing_sorted, position_below};
ghost use Rattle.wh_bind.specs.View.{sorted_in};

use std::alloc::{AllocError, Global};
use std::mem;
use wh_ast::{OrderKey, Sort};
use wh_core_bind::Output;
use wh_expr_bind::Findings;
use wh_listing::SortKey;
use wh_value::Text;

/// The keys of ORDER BY.
#[derive(Debug, Drop)]
pub(crate) struct BoundKeys {
    pub keys: Vec<SortKey>,
    pub findings: Findings,
}

/// The keys of ORDER BY among the output columns of a query.
pub(crate) fn all_sorted(
    alloc: Global,
    outputs: &[Output],
    sorts: &[Sort],
) -> Result<BoundKeys, AllocError>
    ensures { IfOk result (λ k. sorted_in k
        ≡ naming.all_sorted (outputs_of outputs.now) nothing_sorted sorts.now) }
{
    let mut keys = no_keys(alloc);
    for sort in sorts {
        add_key(alloc, outputs, &mut keys, sort)?;
    }
    Ok(keys)
}

fn no_keys(alloc: Global) -> BoundKeys
    ensures { sorted_in result ≡ nothing_sorted }
{
    BoundKeys {
        keys: Vec::new(alloc),
        findings: Findings::nothing(),
    }
}

fn add_key(
    alloc: Global,
    outputs: &[Output],
    keys: &mut BoundKeys,
    sort: &Sort,
) -> Result<(), AllocError>
    ensures { OnOk result (sorted_in keys.new
        ≡ naming.sorted_by (outputs_of outputs.now) (sorted_in keys.old) sort.now) }
{
    match &sort.key {
        OrderKey::Name(name) => match place_of(name, outputs)? {
            Some(place) => add_place(keys, place, sort.descending),
            None => Ok(add_unknown(keys, name.copy(alloc)?)),
        },
        OrderKey::Position(number) => match position_in(*number, outputs.len())? {
            Some(place) => add_place(keys, place, sort.descending),
            None => Ok(add_unknown(keys, printed(alloc, *number)?)),
        },
    }
}

fn add_place(keys: &mut BoundKeys, place: u32, is_descending: bool) -> Result<(), AllocError>
    ensures { OnOk result (sorted_in keys.new
        ≡ naming.with_key (sorted_in keys.old) is_descending [] (Some place)) }
{
    keys.keys.push(SortKey {
        place,
        is_descending,
    })?;
    Ok(())
}

fn add_unknown(keys: &mut BoundKeys, name: Text)
    ensures { sorted_in keys.new ≡ naming.with_key (sorted_in keys.old) false name None }
{
    let found = mem::replace(&mut keys.findings, Findings::nothing());
    keys.findings = found.followed(Findings::unknown_column(name));
}

// The place of the one output of that name.
fn place_of(name: &Text, outputs: &[Output]) -> Result<Option<u32>, AllocError>
    ensures { IfOk result (λ place. place
        ≡ only (naming.positions_of name.now 0 (outputs_of outputs.now))) }
{
    let mut found: Option<u32> = None;
    for place in 0..outputs.len() {
        if outputs[place].name == *name {
            if found.is_some() {
                return Ok(None);
            }
            found = Some(narrow(place)?);
        }
    }
    Ok(found)
}

// The place of a position from 1.
fn position_in(number: u64, count: usize) -> Result<Option<u32>, AllocError>
    ensures { IfOk result (λ place. place ≡ position_below number count) }
{
    if number == 0 || count as u64 <= number - 1 {
        return Ok(None);
    }
    Ok(Some(narrow((number - 1) as usize)?))
}

fn narrow(place: usize) -> Result<u32, AllocError>
    ensures { IfOk result (λ n. n ≡ place) }
{
    match u32::try_from(place) {
        Ok(place) => Ok(place),
        Err(_) => Err(AllocError),
    }
}

// Digits are a text.
fn printed(alloc: Global, number: u64) -> Result<Text, AllocError>
    ensures { IfOk result (λ name. name ≡ decimal number) }
{
    let digits = format!(in alloc; "{number}")?;
    match Text::from_bytes(alloc, digits.as_bytes()) {
        Some(text) => text,
        None => Err(AllocError),
    }
}
