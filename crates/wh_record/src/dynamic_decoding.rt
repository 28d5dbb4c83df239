ghost use Rattle.std.specs.Prelude.{◌≡◌, map};
ghost use Rattle.std.specs.Int.{w32};
ghost use Rattle.wh_part.specs.Reading.{Gives, items_at, list_at, number_at};
ghost use Rattle.wh_dynamic.specs.View.{source_of, state_of};
ghost use Rattle.wh_record.specs.Decoding.{source_at, mode_at, query_texts_at, dynamic_at};
ghost use Rattle.wh_record.specs.Decoding.{dynamic_state_at};
ghost use Rattle.wh_record.specs.View.{query_texts_in, dynamic_in};

use crate::commit::{DynamicChangeIn, DynamicTexts};
use crate::decoding::read_columns;
use crate::task_decoding::read_truth;
use std::alloc::Global;
use wh_dynamic::{DynamicState, NamedSource};
use wh_part::{ReadError, read_text, read_u32, read_u64};

#[tactic(auto, unfolding(crate::specs::Decoding::source_at))]
fn read_source(alloc: Global, bytes: &[u8]) -> Result<(NamedSource, &[u8]), ReadError>
    ensures { Gives (λ x. (source_of x.0, x.1.now)) result (source_at bytes.now) }
{
    let (name, rest) = read_text(alloc, bytes)?;
    let (id, rest) = read_u32(rest)?;
    Ok((NamedSource { name, id }, rest))
}

fn read_each_source(
    alloc: Global,
    count: u32,
    bytes: &[u8],
) -> Result<(Vec<NamedSource>, &[u8]), ReadError>
    ensures { Gives (λ x. (map source_of x.0.items, x.1.now)) result
        (items_at source_at count bytes.now) }
{
    let mut sources = Vec::new(alloc);
    let mut rest = bytes;
    for _ in 0..count {
        let (source, after) = read_source(alloc, rest)?;
        sources.push(source)?;
        rest = after;
    }
    Ok((sources, rest))
}

fn read_sources(alloc: Global, bytes: &[u8]) -> Result<(Vec<NamedSource>, &[u8]), ReadError>
    ensures { Gives (λ x. (map source_of x.0.items, x.1.now)) result
        (list_at (number_at w32) source_at bytes.now) }
{
    let (count, rest) = read_u32(bytes)?;
    let (sources, rest) = read_each_source(alloc, count, rest)?;
    Ok((sources, rest))
}

/// The text of a query, and what it names.
#[tactic(auto, unfolding(crate::specs::Decoding::query_texts_at))]
fn read_query_texts(alloc: Global, bytes: &[u8]) -> Result<(DynamicTexts, &[u8]), ReadError>
    ensures { Gives (λ x. (query_texts_in x.0, x.1.now)) result (query_texts_at bytes.now) }
{
    let (text, rest) = read_text(alloc, bytes)?;
    let (sources, rest) = read_sources(alloc, rest)?;
    Ok((DynamicTexts { text, sources }, rest))
}

/// Whether a dynamic table is incremental.
#[tactic(auto, unfolding(crate::specs::Decoding::mode_at))]
fn read_mode(bytes: &[u8]) -> Result<(bool, &[u8]), ReadError>
    ensures { Gives (λ x. (x.0, x.1.now)) result (mode_at bytes.now) }
{
    match bytes {
        [1, rest @ ..] => Ok((false, rest)),
        [2, rest @ ..] => Ok((true, rest)),
        _ => Err(ReadError::Malformed),
    }
}

#[tactic(auto, unfolding(crate::specs::Decoding::dynamic_at))]
pub(crate) fn read_dynamic(
    alloc: Global,
    bytes: &[u8],
) -> Result<(DynamicChangeIn<DynamicTexts>, &[u8]), ReadError>
    ensures { Gives (λ x. (dynamic_in query_texts_in x.0, x.1.now)) result
        (dynamic_at bytes.now) }
{
    let (id, rest) = read_u32(bytes)?;
    let (name, rest) = read_text(alloc, rest)?;
    let (lag, rest) = read_u32(rest)?;
    let (is_incremental, rest) = read_mode(rest)?;
    let (query, rest) = read_query_texts(alloc, rest)?;
    let (columns, rest) = read_columns(alloc, rest)?;
    let table = DynamicChangeIn {
        id,
        name,
        lag,
        is_incremental,
        query,
        columns,
    };
    Ok((table, rest))
}

/// The id of a dynamic table, and its state.
#[tactic(auto, unfolding(crate::specs::Decoding::dynamic_state_at))]
pub(crate) fn read_dynamic_state(bytes: &[u8]) -> Result<((u32, DynamicState), &[u8]), ReadError>
    ensures { Gives (λ x. ((x.0.0, state_of x.0.1), x.1.now)) result
        (dynamic_state_at bytes.now) }
{
    let (id, rest) = read_u32(bytes)?;
    let (lag, rest) = read_u32(rest)?;
    let (is_suspended, rest) = read_truth(rest)?;
    let (failures, rest) = read_u32(rest)?;
    let (tried, rest) = read_u64(rest)?;
    let (moment, rest) = read_u64(rest)?;
    let state = DynamicState {
        lag,
        is_suspended,
        failures,
        tried,
        moment,
    };
    Ok(((id, state), rest))
}
