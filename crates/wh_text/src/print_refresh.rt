ghost use Rattle.std.specs.Prelude.{◌≡◌, ◌++◌, OnOk, codes, decimal, map};
ghost use Rattle.std.specs.List.{flat_map};
ghost use Rattle.wh_reply.specs.Reply.{line, refusal_text, suspended_text, action_word};
ghost use Rattle.wh_reply.specs.Reply.{refreshed_line, refreshed_lines};
ghost use Rattle.wh_reply.specs.View.{refusal_view, action_view, refreshed_view};

use crate::print::{LF, put_name, put_name_line, put_number, put_refusal};
use crate::print_task::suspended_word;
use std::alloc::AllocError;
use wh_reply::{RefreshAction, Refreshed, Refusal};
use wh_value::{Bytes, Text};

// The line of a name, and those of what was refreshed for it.
pub(crate) fn put_created(
    front: &[u8],
    name: &Text,
    refreshed: &[Refreshed],
    out: &mut Bytes,
) -> Result<(), AllocError>
    ensures { OnOk result (out.new ≡ out.old ++ (line (front.now ++ name.now)
        ++ flat_map refreshed_line (map refreshed_view refreshed.now))) }
{
    put_name_line(front, name, out)?;
    put_refreshed(refreshed, out)
}

// Where no table stood below the moment, nothing was done.
pub(crate) fn put_refreshed_tables(
    refreshed: &[Refreshed],
    out: &mut Bytes,
) -> Result<(), AllocError>
    ensures { OnOk result (out.new
        ≡ out.old ++ refreshed_lines (map refreshed_view refreshed.now)) }
{
    match refreshed {
        [] => out.extend(b"IDLE\n"),
        [_first, _others @ ..] => put_refreshed(refreshed, out),
    }
}

fn put_refreshed(refreshed: &[Refreshed], out: &mut Bytes) -> Result<(), AllocError>
    ensures { OnOk result (out.new
        ≡ out.old ++ flat_map refreshed_line (map refreshed_view refreshed.now)) }
{
    for table in refreshed {
        put_refreshed_line(table, out)?;
    }
    Ok(())
}

fn put_refreshed_line(table: &Refreshed, out: &mut Bytes) -> Result<(), AllocError>
    ensures { OnOk result (out.new ≡ out.old ++ refreshed_line (refreshed_view table.now)) }
{
    put_moment(b" REFRESHED ", &table.name, table.moment, out)?;
    out.push(b' ')?;
    out.extend(word_of(table.action))?;
    put_number(b" +", table.plus, out)?;
    put_number(b" -", table.minus, out)?;
    out.push(LF)
}

// The name of a table, what is said of it, and a moment.
fn put_moment(said: &[u8], name: &Text, moment: u64, out: &mut Bytes) -> Result<(), AllocError>
    ensures { OnOk result (out.new ≡ out.old ++ (name.now ++ said.now ++ decimal moment)) }
{
    out.extend(name.as_bytes())?;
    put_number(said, moment, out)
}

fn word_of(action: RefreshAction) -> &'static [u8]
    ensures { result.now ≡ action_word (action_view action) }
{
    match action {
        RefreshAction::NoData => b"NO_DATA",
        RefreshAction::Full => b"FULL",
        RefreshAction::Incremental => b"INCREMENTAL",
    }
}

pub(crate) fn put_refresh_failed(
    name: &Text,
    target: u64,
    why: &Refusal,
    is_suspended: bool,
    out: &mut Bytes,
) -> Result<(), AllocError>
    ensures { OnOk result (out.new ≡ out.old ++ line (name.now ++ codes " FAILED " ++ decimal target
        ++ codes " " ++ refusal_text (refusal_view why.now) ++ suspended_text is_suspended)) }
{
    put_moment(b" FAILED ", name, target, out)?;
    out.push(b' ')?;
    put_refusal(why, out)?;
    out.extend(suspended_word(is_suspended))?;
    out.push(LF)
}
