ghost use Rattle.std.specs.Prelude.{◌≡◌, ◌++◌, OnOk, codes, decimal};
ghost use Rattle.std.specs.List.{flat_map};
ghost use Rattle.wh_reply.specs.Reply.{line, counts_text, refusal_text, skipped_line, graph_line};
ghost use Rattle.wh_reply.specs.Reply.{aftermath_lines, failed_text, suspended_text};
ghost use Rattle.wh_reply.specs.View.{aftermath_view, counts_view, graph_view, refusal_view};

use crate::print::{LF, put_name, put_number, put_refused};
use std::alloc::AllocError;
use wh_reply::{Aftermath, GraphEnd, Refusal, RowCounts};
use wh_value::{Bytes, Text};

// What a statement changed, as a line or the end of one.
pub(crate) fn put_counts_line(counts: RowCounts, out: &mut Bytes) -> Result<(), AllocError>
    ensures { OnOk result (out.new ≡ out.old ++ line (counts_text (counts_view counts))) }
{
    put_counts(counts, out)?;
    out.push(LF)
}

fn put_counts(counts: RowCounts, out: &mut Bytes) -> Result<(), AllocError>
    ensures { OnOk result (out.new ≡ out.old ++ counts_text (counts_view counts)) }
{
    match counts {
        RowCounts::Inserted(count) => put_number(b"INSERTED ", count, out),
        RowCounts::Updated(count) => put_number(b"UPDATED ", count, out),
        RowCounts::Deleted(count) => put_number(b"DELETED ", count, out),
        RowCounts::Merged {
            inserted,
            updated,
            deleted,
        } => put_merged(inserted, updated, deleted, out),
    }
}

fn put_merged(inserted: u64, updated: u64, deleted: u64, out: &mut Bytes) -> Result<(), AllocError>
    ensures { OnOk result (out.new ≡ out.old ++ (codes "MERGED " ++ decimal inserted
        ++ codes " INSERTED " ++ decimal updated ++ codes " UPDATED " ++ decimal deleted
        ++ codes " DELETED")) }
{
    put_number(b"MERGED ", inserted, out)?;
    put_number(b" INSERTED ", updated, out)?;
    put_number(b" UPDATED ", deleted, out)?;
    out.extend(b" DELETED")
}

pub(crate) fn put_succeeded(
    name: &Text,
    counts: RowCounts,
    aftermath: &Aftermath,
    out: &mut Bytes,
) -> Result<(), AllocError>
    ensures { OnOk result (out.new ≡ out.old ++
        (line (codes "TASK " ++ name.now ++ codes " SUCCEEDED " ++ counts_text (counts_view counts))
        ++ aftermath_lines (aftermath_view aftermath.now))) }
{
    put_name(b"TASK ", name, out)?;
    out.extend(b" SUCCEEDED ")?;
    put_counts_line(counts, out)?;
    put_aftermath(aftermath, out)
}

pub(crate) fn put_skipped(
    name: &Text,
    aftermath: &Aftermath,
    out: &mut Bytes,
) -> Result<(), AllocError>
    ensures { OnOk result (out.new ≡ out.old ++
        (skipped_line name.now ++ aftermath_lines (aftermath_view aftermath.now))) }
{
    put_skipped_line(name, out)?;
    put_aftermath(aftermath, out)
}

pub(crate) fn put_failed(
    name: &Text,
    why: &Refusal,
    aftermath: &Aftermath,
    out: &mut Bytes,
) -> Result<(), AllocError>
    ensures { OnOk result (out.new ≡ out.old ++
        (line (codes "TASK " ++ name.now ++ codes " FAILED " ++ refusal_text (refusal_view why.now))
        ++ aftermath_lines (aftermath_view aftermath.now))) }
{
    put_name(b"TASK ", name, out)?;
    out.extend(b" FAILED ")?;
    put_refused(why, out)?;
    put_aftermath(aftermath, out)
}

fn put_aftermath(aftermath: &Aftermath, out: &mut Bytes) -> Result<(), AllocError>
    ensures { OnOk result (out.new ≡ out.old ++ aftermath_lines (aftermath_view aftermath.now)) }
{
    put_skipped_lines(&aftermath.skipped, out)?;
    match &aftermath.graph {
        Some(graph) => put_graph_line(graph, out),
        None => Ok(()),
    }
}

fn put_skipped_lines(names: &[Text], out: &mut Bytes) -> Result<(), AllocError>
    ensures { OnOk result (out.new ≡ out.old ++ flat_map skipped_line names.now) }
{
    for name in names {
        put_skipped_line(name, out)?;
    }
    Ok(())
}

fn put_skipped_line(name: &Text, out: &mut Bytes) -> Result<(), AllocError>
    ensures { OnOk result (out.new ≡ out.old ++ skipped_line name.now) }
{
    put_name(b"TASK ", name, out)?;
    out.extend(b" SKIPPED\n")
}

fn put_graph_line(graph: &GraphEnd, out: &mut Bytes) -> Result<(), AllocError>
    ensures { OnOk result (out.new ≡ out.old ++ graph_line (graph_view graph.now)) }
{
    put_name(b"GRAPH ", &graph.root, out)?;
    out.extend(run_word(graph.has_failed))?;
    out.extend(suspended_word(graph.is_suspended))?;
    out.push(LF)
}

// What became of a run.
fn run_word(has_failed: bool) -> &'static [u8]
    ensures { result.now ≡ failed_text has_failed }
{
    if has_failed {
        b" FAILED"
    } else {
        b" SUCCEEDED"
    }
}

pub(crate) fn suspended_word(is_suspended: bool) -> &'static [u8]
    ensures { result.now ≡ suspended_text is_suspended }
{
    if is_suspended { b" SUSPENDED" } else { b"" }
}
