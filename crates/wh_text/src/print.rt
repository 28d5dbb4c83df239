ghost use Rattle.std.specs.Prelude.{◌≡◌, [], ◌∷◌, ◌++◌, OnOk, OnErr, List, ℕ, map, codes, decimal};
ghost use Rattle.std.specs.Prelude.{length};
ghost use Rattle.std.specs.List.{flat_map};
ghost use Rattle.wh_value.specs.Limit.{bound};
ghost use Rattle.wh_value.specs.Value.{literal};
ghost use Rattle.wh_value.specs.View.{value_of};
ghost use Rattle.wh_reply.specs.Reply.{print, line, parted, values_text, row_line, limit_word};
ghost use Rattle.wh_reply.specs.Reply.{refusal_text, truth_text};
ghost use Rattle.wh_reply.specs.View.{reply_view, refusal_view};

use crate::print_refresh::{put_created, put_refresh_failed, put_refreshed_tables};
use crate::print_task::{put_counts_line, put_failed, put_skipped, put_succeeded};
use std::alloc::{AllocError, Global};
use wh_reply::{Refusal, Reply};
use wh_value::{Bytes, Limit, Row, Text, Value, print_literal};

pub(crate) const LF: u8 = b'\n';

/// Adds the lines of a reply, each with its LF, or nothing where memory runs out.
pub fn print_reply(alloc: Global, reply: Reply, out: &mut Bytes) -> Result<(), AllocError>
    ensures ok { OnOk result (out.new ≡ out.old ++ print (reply_view reply)) }
    ensures err { OnErr result (out.new ≡ out.old) }
{
    if out.len() == 0 {
        return print_alone(reply, out);
    }
    let mut lines = Bytes::new(alloc);
    put_reply(reply, &mut lines)?;
    out.extend(lines.as_slice())
}

// Where nothing is there yet, no text of its own is needed.
fn print_alone(reply: Reply, out: &mut Bytes) -> Result<(), AllocError>
    requires { out.old ≡ [] }
    ensures ok { OnOk result (out.new ≡ print (reply_view reply)) }
    ensures err { OnErr result (out.new ≡ []) }
{
    let put = put_reply(reply, out);
    if put.is_err() {
        out.clear();
    }
    put
}

#[tactic(auto, unfolding(wh_reply::specs::Reply::print))]
fn put_reply(reply: Reply, out: &mut Bytes) -> Result<(), AllocError>
    ensures { OnOk result (out.new ≡ out.old ++ print (reply_view reply)) }
{
    match reply {
        Reply::CreatedDynamicTable { name, refreshed } => {
            put_created(b"CREATED DYNAMIC TABLE ", &name, &refreshed, out)
        }
        Reply::DroppedDynamicTable(name) => put_name_line(b"DROPPED DYNAMIC TABLE ", &name, out),
        Reply::Altered(name) => put_name_line(b"ALTERED ", &name, out),
        Reply::RefreshedTables(refreshed) => put_refreshed_tables(&refreshed, out),
        Reply::RefreshFailed {
            name,
            target,
            why,
            is_suspended,
        } => put_refresh_failed(&name, target, &why, is_suspended, out),
        Reply::CreatedTable(name) => put_name_line(b"CREATED TABLE ", &name, out),
        Reply::DroppedTable(name) => put_name_line(b"DROPPED TABLE ", &name, out),
        Reply::CreatedStream(name) => put_name_line(b"CREATED STREAM ", &name, out),
        Reply::DroppedStream(name) => put_name_line(b"DROPPED STREAM ", &name, out),
        Reply::CreatedTask(name) => put_name_line(b"CREATED TASK ", &name, out),
        Reply::DroppedTask(name) => put_name_line(b"DROPPED TASK ", &name, out),
        Reply::Resumed(name) => put_name_line(b"RESUMED ", &name, out),
        Reply::Suspended(name) => put_name_line(b"SUSPENDED ", &name, out),
        Reply::Started(root) => put_name_line(b"STARTED ", &root, out),
        Reply::TaskSucceeded {
            name,
            counts,
            aftermath,
        } => put_succeeded(&name, counts, &aftermath, out),
        Reply::TaskSkipped { name, aftermath } => put_skipped(&name, &aftermath, out),
        Reply::TaskFailed {
            name,
            why,
            aftermath,
        } => put_failed(&name, &why, &aftermath, out),
        Reply::HasData(has) => put_truth_line(has, out),
        Reply::Changed(counts) => put_counts_line(counts, out),
        Reply::Begun(number) => put_count_line(b"BEGUN ", number, out),
        Reply::Committed(stamp) => put_count_line(b"COMMITTED ", stamp, out),
        Reply::CommittedNothing => out.extend(b"COMMITTED NOTHING\n"),
        Reply::RolledBack => out.extend(b"ROLLED BACK\n"),
        Reply::Listing { names, rows } => put_listing(&names, rows, out),
        Reply::Idle => out.extend(b"IDLE\n"),
        Reply::Refused(refusal) => put_refused(&refusal, out),
    }
}

pub(crate) fn put_name_line(front: &[u8], name: &Text, out: &mut Bytes) -> Result<(), AllocError>
    ensures { OnOk result (out.new ≡ out.old ++ line (front.now ++ name.now)) }
{
    put_name(front, name, out)?;
    out.push(LF)
}

pub(crate) fn put_name(front: &[u8], name: &Text, out: &mut Bytes) -> Result<(), AllocError>
    ensures { OnOk result (out.new ≡ out.old ++ (front.now ++ name.now)) }
{
    out.extend(front)?;
    out.extend(name.as_bytes())
}

fn put_count_line(front: &[u8], count: u64, out: &mut Bytes) -> Result<(), AllocError>
    ensures { OnOk result (out.new ≡ out.old ++ line (front.now ++ decimal count)) }
{
    put_number(front, count, out)?;
    out.push(LF)
}

pub(crate) fn put_number(front: &[u8], number: u64, out: &mut Bytes) -> Result<(), AllocError>
    ensures { OnOk result (out.new ≡ out.old ++ (front.now ++ decimal number)) }
{
    out.extend(front)?;
    out.extend_decimal(number)
}

fn put_truth_line(truth: bool, out: &mut Bytes) -> Result<(), AllocError>
    ensures { OnOk result (out.new ≡ out.old ++ line (truth_text truth)) }
{
    if truth {
        out.extend(b"TRUE\n")
    } else {
        out.extend(b"FALSE\n")
    }
}

pub(crate) fn put_refused(refusal: &Refusal, out: &mut Bytes) -> Result<(), AllocError>
    ensures { OnOk result (out.new ≡ out.old ++ line (refusal_text (refusal_view refusal.now))) }
{
    put_refusal(refusal, out)?;
    out.push(LF)
}

pub(crate) fn put_refusal(refusal: &Refusal, out: &mut Bytes) -> Result<(), AllocError>
    ensures { OnOk result (out.new ≡ out.old ++ refusal_text (refusal_view refusal.now)) }
{
    match refusal {
        Refusal::SyntaxError => out.extend(b"E1 SyntaxError"),
        Refusal::NoSuchSession(session) => put_number(b"E2 NoSuchSession ", *session, out),
        Refusal::DdlInTransaction(number) => put_number(b"E3 DdlInTransaction ", *number, out),
        Refusal::TransactionOpen(number) => put_number(b"E4 TransactionOpen ", *number, out),
        Refusal::NoTransaction => out.extend(b"E5 NoTransaction"),
        Refusal::UnknownName(name) => put_name(b"E6 UnknownName ", name, out),
        Refusal::NameTaken(name) => put_name(b"E7 NameTaken ", name, out),
        Refusal::WrongKind(name) => put_name(b"E8 WrongKind ", name, out),
        Refusal::TypeMismatch => out.extend(b"E9 TypeMismatch"),
        Refusal::NotIncrementable => out.extend(b"E10 NotIncrementable"),
        Refusal::LagTooShort { table, upstream } => {
            put_names_of(b"E11 LagTooShort ", table, upstream, out)
        }
        Refusal::RootRunning(root) => put_name(b"E12 RootRunning ", root, out),
        Refusal::RootNotSuspended(root) => put_name(b"E12 RootNotSuspended ", root, out),
        Refusal::HasChildren(child) => put_name(b"E12 HasChildren ", child, out),
        Refusal::OverLimit(limit) => put_limit(*limit, out),
        Refusal::NotInitialized(name) => put_name(b"E14 NotInitialized ", name, out),
        Refusal::SourceGone(name) => put_name(b"E15 SourceGone ", name, out),
        Refusal::StaleStream { offset, last_read } => {
            put_numbers(b"E16 StaleStream ", *offset, *last_read, out)
        }
        Refusal::IsSuspended(name) => put_name(b"E17 Suspended ", name, out),
        Refusal::Locked(number) => put_number(b"E18 Locked ", *number, out),
        Refusal::NumberOutOfRange => out.extend(b"E19 NumberOutOfRange"),
        Refusal::AmbiguousMerge(row) => put_named_row(b"E20 AmbiguousMerge ", row, out),
    }
}

fn put_names_of(
    front: &[u8],
    table: &Text,
    upstream: &Text,
    out: &mut Bytes,
) -> Result<(), AllocError>
    ensures { OnOk result (out.new ≡ out.old
        ++ (front.now ++ table.now ++ codes " " ++ upstream.now)) }
{
    put_name(front, table, out)?;
    put_name(b" ", upstream, out)
}

fn put_numbers(front: &[u8], first: u64, second: u64, out: &mut Bytes) -> Result<(), AllocError>
    ensures { OnOk result (out.new ≡ out.old ++ (front.now ++ decimal first ++ codes " "
        ++ decimal second)) }
{
    put_number(front, first, out)?;
    put_number(b" ", second, out)
}

fn put_named_row(front: &[u8], row: &Row, out: &mut Bytes) -> Result<(), AllocError>
    ensures { OnOk result (out.new ≡ out.old ++ (front.now ++ values_text row.now)) }
{
    out.extend(front)?;
    put_values(row.values(), out)
}

fn put_limit(limit: Limit, out: &mut Bytes) -> Result<(), AllocError>
    ensures { OnOk result (out.new ≡ out.old ++
        (codes "E13 Limit " ++ limit_word limit ++ codes " " ++ decimal (bound limit))) }
{
    out.extend(b"E13 Limit ")?;
    put_limit_word(limit, out)?;
    out.push(b' ')?;
    out.extend_decimal(limit.bound())
}

fn put_limit_word(limit: Limit, out: &mut Bytes) -> Result<(), AllocError>
    ensures { OnOk result (out.new ≡ out.old ++ limit_word limit) }
{
    match limit {
        Limit::Statement => out.extend(b"STATEMENT"),
        Limit::Stamp => out.extend(b"STAMP"),
        Limit::RowNumber => out.extend(b"ROW_NUMBER"),
        Limit::PartitionNumber => out.extend(b"PARTITION_NUMBER"),
        Limit::ObjectIds => out.extend(b"OBJECT_IDS"),
        Limit::Objects => out.extend(b"OBJECTS"),
        Limit::Name => out.extend(b"NAME"),
        Limit::Columns => out.extend(b"COLUMNS"),
        Limit::Output => out.extend(b"OUTPUT"),
        Limit::GraphTasks => out.extend(b"GRAPH_TASKS"),
        Limit::Predecessors => out.extend(b"PREDECESSORS"),
        Limit::Children => out.extend(b"CHILDREN"),
        Limit::LeastSchedule | Limit::MostSchedule => out.extend(b"SCHEDULE"),
        Limit::LeastTargetLag | Limit::MostTargetLag => out.extend(b"TARGET_LAG"),
        Limit::Retention => out.extend(b"RETENTION"),
    }
}

fn put_listing(names: &[Text], rows: Vec<Row>, out: &mut Bytes) -> Result<(), AllocError>
    ensures { OnOk result (out.new ≡ out.old ++
        (line (parted names.now) ++ flat_map row_line rows.items
        ++ line (codes "(" ++ decimal (length rows.items) ++ codes " rows)"))) }
{
    let count = rows.len() as u64;
    put_header(names, out)?;
    put_rows(rows, out)?;
    put_count(count, out)
}

fn put_header(names: &[Text], out: &mut Bytes) -> Result<(), AllocError>
    ensures { OnOk result (out.new ≡ out.old ++ line (parted names.now)) }
{
    put_names(names, out)?;
    out.push(LF)
}

fn put_names(names: &[Text], out: &mut Bytes) -> Result<(), AllocError>
    ensures { OnOk result (out.new ≡ out.old ++ parted names.now) }
{
    match names {
        [] => Ok(()),
        [first, others @ ..] => {
            out.extend(first.as_bytes())?;
            put_other_names(others, out)
        }
    }
}

fn put_other_names(names: &[Text], out: &mut Bytes) -> Result<(), AllocError>
    ensures { OnOk result (out.new ≡ out.old ++ flat_map (λ name. codes " | " ++ name) names.now) }
{
    for name in names {
        out.extend(b" | ")?;
        out.extend(name.as_bytes())?;
    }
    Ok(())
}

// A row goes behind its line, while it is near.
fn put_rows(rows: Vec<Row>, out: &mut Bytes) -> Result<(), AllocError>
    ensures { OnOk result (out.new ≡ out.old ++ flat_map row_line rows.items) }
{
    for row in rows {
        put_row(&row, out)?;
    }
    Ok(())
}

fn put_row(row: &Row, out: &mut Bytes) -> Result<(), AllocError>
    ensures { OnOk result (out.new ≡ out.old ++ row_line row.now) }
{
    put_values(row.values(), out)?;
    out.push(LF)
}

fn put_values(values: &[Value], out: &mut Bytes) -> Result<(), AllocError>
    ensures { OnOk result (out.new ≡ out.old ++ values_text (map value_of values.now)) }
{
    match values {
        [] => Ok(()),
        [first, others @ ..] => {
            print_literal(first, out)?;
            put_other_values(others, out)
        }
    }
}

fn put_other_values(values: &[Value], out: &mut Bytes) -> Result<(), AllocError>
    ensures { OnOk result (out.new ≡ out.old ++
        flat_map (λ value. codes " | " ++ literal (value_of value)) values.now) }
{
    for value in values {
        out.extend(b" | ")?;
        print_literal(value, out)?;
    }
    Ok(())
}

fn put_count(count: u64, out: &mut Bytes) -> Result<(), AllocError>
    ensures { OnOk result (out.new ≡ out.old
        ++ line (codes "(" ++ decimal count ++ codes " rows)")) }
{
    out.extend(b"(")?;
    out.extend_decimal(count)?;
    out.extend(b" rows)\n")
}
