//! What the streams of a condition are refused for.
ghost use Rattle.std.specs.Prelude.{◌≡◌, ◌++◌, not, map, option_map, IfOk, OnOk};
ghost use Rattle.std.specs.Option.{option_to_list};
ghost use Rattle.wh_ddl_naming.specs.Names.{names_at};
ghost use Rattle.wh_reply.specs.Reply.{UnknownName, WrongKind};
ghost use Rattle.wh_reply.specs.View.{refusal_view};
ghost use Rattle.wh_state.specs.State.{id_of};
ghost use Rattle.wh_state.specs.Objects.{is_kind_at, is_stream};
ghost use Rattle.wh_machine.specs.Tests.{refused_if, first_of};
ghost use Rattle.wh_machine.specs.Ticks as machine;
ghost use Rattle.wh_machine.specs.Ticks.{unknown_in, no_stream_in};
ghost use Rattle.wh_catalog.specs.Catalog.{state_of};
ghost use Rattle.wh_decide.specs.Sight.{machine_in};
ghost use Rattle.wh_tick.specs.Guards.{ids_told};

use crate::lookups::{id_of, stream_at};
use std::alloc::{AllocError, Global};
use wh_catalog::Catalog;
use wh_decide::{Sight, reading_refusal};
use wh_reply::Refusal;
use wh_value::Text;

/// The first test that the streams of a condition fail: that each name is known, then that each is
/// that of a stream, and then that each stream can be read.
pub(crate) fn guard_refusal(
    alloc: Global,
    sight: &Sight<'_>,
    streams: &[&Text],
) -> Result<Option<Refusal>, AllocError>
    ensures { IfOk result (λ found. option_map refusal_view found
        ≡ machine.guard_refusal (machine_in sight.now) (names_at streams.now)) }
{
    if let Some(name) = first_unknown(sight.catalog, streams) {
        let copy = name.copy(alloc)?;
        return Ok(Some(Refusal::UnknownName(copy)));
    }
    if let Some(name) = first_other(sight.catalog, streams) {
        let copy = name.copy(alloc)?;
        return Ok(Some(Refusal::WrongKind(copy)));
    }
    let ids = ids_of(alloc, sight.catalog, streams)?;
    reading_refusal(alloc, sight, &ids)
}

// The first name that no live object has.
fn first_unknown<'a>(catalog: &Catalog, names: &[&'a Text]) -> Option<&'a Text>
    ensures { option_map (λ name. UnknownName name.now) result
        ≡ first_of (map (unknown_in (state_of catalog.now).objects) (names_at names.now)) }
{
    for name in names {
        if !is_known(catalog, name) {
            return Some(*name);
        }
    }
    None
}

fn is_known(catalog: &Catalog, name: &Text) -> bool
    ensures { unknown_in (state_of catalog.now).objects name.now
        ≡ refused_if (not result) (UnknownName name.now) }
{
    id_of(catalog, name).is_some()
}

// The first name of an object that is no stream.
fn first_other<'a>(catalog: &Catalog, names: &[&'a Text]) -> Option<&'a Text>
    ensures { option_map (λ name. WrongKind name.now) result
        ≡ first_of (map (no_stream_in (state_of catalog.now).objects) (names_at names.now)) }
{
    for name in names {
        if is_other(catalog, name) {
            return Some(*name);
        }
    }
    None
}

fn is_other(catalog: &Catalog, name: &Text) -> bool
    ensures { no_stream_in (state_of catalog.now).objects name.now
        ≡ refused_if result (WrongKind name.now) }
{
    match id_of(catalog, name) {
        Some(id) => !is_stream(catalog, id),
        None => false,
    }
}

fn is_stream(catalog: &Catalog, id: u32) -> bool
    ensures { result ≡ is_kind_at is_stream (state_of catalog.now).objects id }
{
    match stream_at(catalog, id) {
        Some(_) => true,
        None => false,
    }
}

// The ids of the objects of names, each where there is one.
fn ids_of(alloc: Global, catalog: &Catalog, names: &[&Text]) -> Result<Vec<u32>, AllocError>
    ensures { IfOk result (λ ids. ids.items
        ≡ ids_told (state_of catalog.now).objects (names_at names.now)) }
{
    let mut ids = Vec::new(alloc);
    for name in names {
        add_id(&mut ids, catalog, name)?;
    }
    Ok(ids)
}

fn add_id(ids: &mut Vec<u32>, catalog: &Catalog, name: &Text) -> Result<(), AllocError>
    ensures { OnOk result (ids.new.items ≡ ids.old.items
        ++ option_to_list (id_of name.now (state_of catalog.now).objects)) }
{
    if let Some(id) = id_of(catalog, name) {
        ids.push(id)?;
    }
    Ok(())
}
