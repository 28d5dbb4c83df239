ghost use Rattle.std.specs.Prelude.{◌≡◌, ◌≤◌, ℕ, None, option_map, if◌then◌else◌};
ghost use Rattle.std.specs.Prelude.{IfOk, OnOk, IfErr, IsErrOf};
ghost use Rattle.wh_reply.specs.Reply.{is_refusal};
ghost use Rattle.wh_reply.specs.View.{reply_view};
ghost use Rattle.wh_state.specs.Sound.{Sound};
ghost use Rattle.wh_text.specs.Script.{fault_of};
ghost use Rattle.wh_catalog.specs.Catalog.{state_of};
ghost use Rattle.wh_decide.specs.Event.{event_of};
ghost use Rattle.wh_engine.specs.Warehouse.{machine_of, led_to};
ghost use Rattle.wh_engine.specs.Leaves.{Leaves};
ghost use Rattle.wh_shell.specs.Code.{status_of};
ghost use Rattle.wh_shell.specs.Events.{events};
ghost use Rattle.wh_shell.specs.Open.{IsOpen, IsTold, StaysOpen};
ghost use Rattle.wh_shell.specs.Point.{starting, awaiting};
ghost use Rattle.wh_shell.specs.Reading.{unread, Reads};
ghost use Rattle.wh_shell.specs.Run.{StopsWhereTooLong};
ghost use Rattle.wh_shell.specs.Serving.{Carries, Halts, Advances, Stops, Serves};
ghost use Rattle.wh_shell.specs.Ticking.{TakesTurn, TakesFor};
ghost use Rattle.wh_shell.specs.World.{world_of, IsLater};

use crate::Fault;
use crate::reader::Reader;
use crate::timing::timed;
use crate::writing::write_all;
use std::alloc::Global;
use std::thread::Threads;
use wh_engine::{Event, Warehouse};
use wh_reply::Reply;
use wh_text::print_reply;
use wh_value::Bytes;
use wh_world::{Clock, Disk, Sink, Source};

/// Carries out the events of a script over an open warehouse, writes their replies, and gives the
/// number of refusals.
pub(crate) fn serve<S: Source, K: Sink, D: Disk, C: Clock>(
    rt: &(impl Threads + Sync),
    alloc: Global,
    warehouse: &mut Warehouse<D>,
    system: bool,
    script: &mut S,
    out: &mut K,
    clock: &mut C,
) -> Result<u64, Fault>
    requires { IsOpen warehouse.old }
    ensures served { IfOk result (Serves D.Disk S.Source K.Sink
        (starting S.Source C.Clock system warehouse.old script.old out.old clock.old)
        (machine_of warehouse.new) (world_of warehouse.new.fetch.disk script.new out.new)) }
    ensures ready { OnOk result (StaysOpen warehouse.old warehouse.new) }

    // Where it is stopped, a front of the text was written.
    ensures stopped { IfErr result (Stops D.Disk S.Source K.Sink
        (starting S.Source C.Clock system warehouse.old script.old out.old clock.old)
        (world_of warehouse.new.fetch.disk script.new out.new)) }
    ensures long { StopsWhereTooLong S.Source script.old script.new (status_of result) }
    ensures clock { TakesFor C.Clock system (option_map events (S.left script.old))
        (status_of result) clock.old clock.new }
{
    let mut reader = Reader::new(alloc);
    let mut lines = Bytes::new(alloc);
    let mut refused: u64 = 0;
    'turns: loop {
        let found = turn(
            rt,
            alloc,
            warehouse,
            &mut reader,
            script,
            &mut lines,
            out,
            system,
            clock,
        )?;
        let Some(refusals) = found else {
            return Ok(refused);
        };
        refused += refusals;
    }
}

// Reads the next event, carries it out, and writes its reply: None where no event is left.
fn turn<S: Source, K: Sink, D: Disk, C: Clock>(
    rt: &(impl Threads + Sync),
    alloc: Global,
    warehouse: &mut Warehouse<D>,
    reader: &mut Reader,
    script: &mut S,
    lines: &mut Bytes,
    out: &mut K,
    system: bool,
    clock: &mut C,
) -> Result<Option<u64>, Fault>
    requires ready { IsOpen warehouse.old }
    requires goes { fault_of reader.old.script ≡ None }
    ensures went { IfOk result (Advances D.Disk S.Source K.Sink
        (awaiting S.Source C.Clock system warehouse.old reader.old script.old out.old clock.old)
        (awaiting S.Source C.Clock system warehouse.new reader.new script.new out.new clock.new)) }
    ensures ready { OnOk result (StaysOpen warehouse.old warehouse.new) }
    ensures stopped { IfErr result (Stops D.Disk S.Source K.Sink
        (awaiting S.Source C.Clock system warehouse.old reader.old script.old out.old clock.old)
        (world_of warehouse.new.fetch.disk script.new out.new)) }
    ensures full { (len need : ℕ) → IsErrOf result (Fault.FileFull len need) → out.new ≡ out.old }
    ensures reads { Reads reader.old.script reader.new.script
        (S.left script.old) (S.left script.new) result Fault.ScriptTooLong }
    ensures later { IsLater D.Disk S.Source K.Sink
        (world_of warehouse.old.fetch.disk script.old out.old)
        (world_of warehouse.new.fetch.disk script.new out.new) }
    ensures clock { TakesTurn C.Clock system (unread reader.old (S.left script.old))
        (unread reader.new (S.left script.new)) result clock.old clock.new }
{
    let Some(event) = reader.next(script)? else {
        return Ok(None);
    };
    let event = timed(event, system, clock);
    let refusals = answer(rt, alloc, warehouse, &event, lines, out)?;
    Ok(Some(refusals))
}

// Carries out an event, writes its reply, and gives 1 for a refusal. `lines` is where the reply is
// printed.
fn answer<K: Sink, D: Disk>(
    rt: &(impl Threads + Sync),
    alloc: Global,
    warehouse: &mut Warehouse<D>,
    event: &Event,
    lines: &mut Bytes,
    out: &mut K,
) -> Result<u64, Fault>
    requires { IsOpen warehouse.old }
    // Over a told file, and from a sound machine.
    ensures carried { IsTold warehouse.old → IfOk result (Carries K.Sink warehouse.old warehouse.new
        (event_of event.now) out.old out.new) }
    ensures few { IfOk result (λ count. count ≤ 1) }
    ensures ready { OnOk result (StaysOpen warehouse.old warehouse.new) }

    // Where it is stopped, a front of the reply was written.
    ensures halts { IfErr result (Halts K.Sink warehouse.old warehouse.new
        (event_of event.now) out.old out.new) }

    // Over any outcome.
    ensures any_moment { Sound (state_of warehouse.old.catalog) → Leaves warehouse.old warehouse.new
        (led_to warehouse.old (event_of event.now)).state }
    ensures disk_later { D.faults warehouse.old.fetch.disk ≤ D.faults warehouse.new.fetch.disk }
    ensures out_later { K.faults out.old ≤ K.faults out.new }
{
    let reply = warehouse.carry_out(rt, event)?;
    lines.clear();
    let refusals = refusals_in(&reply);
    print_reply(alloc, reply, lines)?;
    write_all(out, lines.as_slice())?;
    Ok(refusals)
}

// 1 for a refusal.
fn refusals_in(reply: &Reply) -> u64
    ensures { result ≡ (if is_refusal (reply_view reply.now) then 1 else 0) }
{
    match reply {
        Reply::Refused(_) => 1,
        _ => 0,
    }
}
