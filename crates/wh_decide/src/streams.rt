ghost use Rattle.std.specs.Prelude.{◌≡◌, ◌∷◌, [], Some, None, option_map, IfOk};
ghost use Rattle.wh_fetch.specs.Device.{Counts};
ghost use Rattle.wh_fetch.specs.DiskFetch.{told_of, faults_of, damage_of, IsRight, GoesOn};
ghost use Rattle.wh_reply.specs.View.{refusal_view};
ghost use Rattle.wh_ddl_bind.specs.View.{new_stream_of};
ghost use Rattle.wh_state.specs.Commit.{CreatesStream};
ghost use Rattle.wh_machine.specs.Streams as machine;
ghost use Rattle.wh_machine.specs.Reading as reading;
ghost use Rattle.wh_machine.specs.Definitions.{defines};
ghost use Rattle.wh_record.specs.View.{change_of};
ghost use Rattle.wh_catalog.specs.Catalog.{state_of};
ghost use Rattle.wh_decide.specs.Sight.{machine_in, IsShown, Comes, IsReady};
ghost use Rattle.wh_decide.specs.Asked.{AsksForMoved};

use crate::decision::{Decision, Settlement};
use crate::definitions::{count_refusal, defined, definition_refusal, drop_object, is_long};
use crate::limits::refused_if;
use crate::reading::{name_of, reading_refusal};
use crate::sight::Sight;
use std::alloc::{AllocError, Global};
use wh_catalog::Catalog;
use wh_ddl_bind::NewStream;
use wh_fetch::{DiskFetch, FetchFault};
use wh_record::{Change, StreamChange};
use wh_reply::{Refusal, Reply};
use wh_value::Limit;
use wh_world::Disk;

// What CREATE STREAM comes to, whose names are right: a new stream, the last of the catalog. It
// shows what comes behind its commit.
pub(crate) fn create_stream(
    alloc: Global,
    sight: &Sight<'_>,
    stream: NewStream,
) -> Result<Decision, AllocError>
    ensures { IfOk result (λ decision. Comes sight.now decision
        (defines (machine_in sight.now) sight.now.session None
        (machine.create_stream (machine_in sight.now) None (new_stream_of stream)))) }
{
    let wrong = stream_refusal(sight.catalog, &stream);
    if let Some(why) = definition_refusal(sight, None, wrong) {
        return Ok(Decision::Refuse(why));
    }
    let id = sight.catalog.object_count() as u32 + 1;
    let reply = Reply::CreatedStream(stream.name.copy(alloc)?);
    let changes = vec![in alloc; stream_change(stream, id, sight.stamp)]?;
    Ok(defined(sight, reply, changes))
}

// The first test that a new stream fails whose names are right.
fn stream_refusal(catalog: &Catalog, stream: &NewStream) -> Option<Refusal>
    ensures { option_map refusal_view result
        ≡ machine.stream_refusal (state_of catalog.now) None (new_stream_of stream.now) }
{
    count_refusal(catalog, None).or(refused_if(
        is_long(&stream.name),
        Refusal::OverLimit(Limit::Name),
    ))
}

fn stream_change(stream: NewStream, id: u32, offset: u64) -> Change
    ensures { change_of result ≡ CreatesStream (record {
      id = id;
      name = stream.name;
      source = stream.table;
      is_append_only = stream.is_append_only;
      offset = offset;
    }) }
{
    let NewStream {
        name,
        table,
        is_append_only,
    } = stream;
    Change::CreatesStream(StreamChange {
        id,
        name,
        source: table,
        is_append_only,
        offset,
    })
}

// What DROP STREAM comes to, of a stream.
pub(crate) fn drop_stream(alloc: Global, sight: &Sight<'_>, id: u32) -> Result<Decision, AllocError>
    ensures { IfOk result (λ decision. Comes sight.now decision
        (defines (machine_in sight.now) sight.now.session (Some id)
        (machine.drop_stream (machine_in sight.now) None id))) }
{
    let reply = Reply::DroppedStream(name_of(alloc, sight.catalog, id)?);
    drop_object(alloc, sight, id, None, reply)
}

// What SYSTEM$STREAM_HAS_DATA comes to, of a stream: it is refused as a read of it is, and moves
// nothing.
#[tactic(auto, using(wh_fetch::specs::DiskFetch::goes_on, wh_fetch::specs::DiskFetch::goes_none))]
pub(crate) fn has_data<D: Disk>(
    alloc: Global,
    sight: &Sight<'_>,
    id: u32,
    fetch: &mut DiskFetch<D>,
) -> Result<Decision, FetchFault>
    requires { IsRight D.Disk fetch.old }
    ensures comes { IsShown (told_of D.Disk fetch.old) sight.now
        → IfOk result (λ decision. Comes sight.now decision
        (reading.has_data (machine_in sight.now) sight.now.session None id)) }
    ensures ready { IfOk result (λ decision. IsReady sight.now decision) }
    ensures asks { AsksForMoved sight.now.catalog.now
        (reading.start_in (machine_in sight.now) sight.now.session) (id ∷ [])
        fetch.old.asked.items fetch.new.asked.items }
    ensures sound { IsShown (told_of D.Disk fetch.old) sight.now
        → damage_of fetch.new ≡ damage_of fetch.old }
    ensures same { told_of D.Disk fetch.new ≡ told_of D.Disk fetch.old }
    ensures goes { GoesOn D.Disk fetch.old fetch.new }
    ensures counts { Counts (faults_of D.Disk fetch.old) (faults_of D.Disk fetch.new) result }
{
    let Some(stream) = sight.catalog.stream(id) else {
        return Ok(Decision::Do {
            reply: Reply::HasData(false),
            settlement: Settlement::Answers,
        });
    };
    if let Some(why) = reading_refusal(alloc, sight, &[id])? {
        return Ok(Decision::Refuse(why));
    }
    let has_rows = wh_stream::has_data(alloc, sight.catalog, stream, sight.start(), fetch)?;
    Ok(Decision::Do {
        reply: Reply::HasData(has_rows),
        settlement: Settlement::Answers,
    })
}
