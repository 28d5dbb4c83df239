ghost use Rattle.std.specs.Prelude.{◌≡◌, ◌<◌, ◌^◌, ◌++◌, map, length, OnOk};
ghost use Rattle.std.specs.List.{flat_map, AllByRecursion};
ghost use Rattle.wh_frame.specs.Spelling.{list_bytes};
ghost use Rattle.wh_state.specs.Commit.{dynamic_as_text};
ghost use Rattle.wh_state.specs.Spelling.{source_bytes, mode_byte, dynamic_bytes};
ghost use Rattle.wh_state.specs.Spelling.{dynamic_state_bytes, IsSource, IsDynamicChange};
ghost use Rattle.wh_state.specs.Spelling.{IsDynamicState};
ghost use Rattle.wh_dynamic.specs.View.{source_of, state_of};
ghost use Rattle.wh_record.specs.View.{dynamic_change_of};

use crate::DynamicChange;
use crate::encoding::{write_columns, write_count};
use crate::task_encoding::byte_of_truth;
use std::alloc::AllocError;
use wh_dynamic::{DynamicState, NamedSource};
use wh_part::{write_text, write_u32, write_u64};
use wh_value::Bytes;

#[tactic(auto, unfolding(wh_state::specs::Spelling::source_bytes))]
fn write_source(out: &mut Bytes, source: &NamedSource) -> Result<(), AllocError>
    ensures written { OnOk result (out.new ≡ out.old ++ source_bytes (source_of source.now)) }
    ensures spelled { OnOk result (IsSource (source_of source.now)) }
{
    write_text(out, &source.name)?;
    write_u32(out, source.id)
}

fn write_sources(out: &mut Bytes, sources: &[NamedSource]) -> Result<(), AllocError>
    ensures written { OnOk result (out.new
        ≡ out.old ++ list_bytes source_bytes (map source_of sources.now)) }
    ensures fits { OnOk result (length sources.now < 2 ^ 32) }
    ensures spelled { OnOk result (AllByRecursion IsSource (map source_of sources.now)) }
{
    write_count(out, sources.len())?;
    write_each_source(out, sources)?;
    Ok(())
}

fn write_each_source(out: &mut Bytes, sources: &[NamedSource]) -> Result<(), AllocError>
    ensures written { OnOk result (out.new
        ≡ out.old ++ flat_map source_bytes (map source_of sources.now)) }
    ensures spelled { OnOk result (AllByRecursion IsSource (map source_of sources.now)) }
{
    for source in sources {
        write_source(out, source)?;
    }
    Ok(())
}

fn byte_of_mode(is_incremental: bool) -> u8
    ensures { result ≡ mode_byte is_incremental }
{
    if is_incremental { 2 } else { 1 }
}

#[tactic(auto, unfolding(wh_state::specs::Spelling::dynamic_bytes))]
pub(crate) fn write_dynamic(out: &mut Bytes, table: &DynamicChange) -> Result<(), AllocError>
    ensures written { OnOk result (out.new
        ≡ out.old ++ dynamic_bytes (dynamic_as_text (dynamic_change_of table.now))) }
    ensures spelled { OnOk result
        (IsDynamicChange (dynamic_as_text (dynamic_change_of table.now))) }
{
    write_u32(out, table.id)?;
    write_text(out, &table.name)?;
    write_u32(out, table.lag)?;
    out.push(byte_of_mode(table.is_incremental))?;
    write_text(out, &table.query.text)?;
    write_sources(out, &table.query.sources)?;
    write_columns(out, &table.columns)?;
    Ok(())
}

#[tactic(auto, unfolding(wh_state::specs::Spelling::dynamic_state_bytes))]
pub(crate) fn write_dynamic_state(
    out: &mut Bytes,
    id: u32,
    state: DynamicState,
) -> Result<(), AllocError>
    ensures written { OnOk result (out.new ≡ out.old ++ dynamic_state_bytes id (state_of state)) }
    ensures spelled { OnOk result (IsDynamicState id (state_of state)) }
{
    write_u32(out, id)?;
    write_u32(out, state.lag)?;
    out.push(byte_of_truth(state.is_suspended))?;
    write_u32(out, state.failures)?;
    write_u64(out, state.tried)?;
    write_u64(out, state.moment)?;
    Ok(())
}
