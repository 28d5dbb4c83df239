//! Options of tasks.
ghost use Rattle.std.specs.Prelude.{◌≡◌, OnErr};
ghost use Rattle.wh_cursor.specs.Gives.{Reads};
ghost use Rattle.wh_option_parse.specs.Read as spec;

use crate::gathering::options;
use crate::lags::read_schedule;
use std::alloc::Global;
use wh_cursor::{ParseFault, TokenClass, Words, name};

/// The options of a task so far.
#[derive(Clone, Copy)]
pub struct TaskParts {
    pub warehouse: bool,
    pub minutes: Option<u64>,
}

/// Behind WAREHOUSE. The name has no meaning here.
#[tactic(auto, unfolding(crate::specs::Read::task_warehouse))]
fn task_warehouse(
    alloc: Global,
    words: &mut Words<'_>,
    parts: TaskParts,
) -> Result<TaskParts, ParseFault>
    ensures { Reads (spec.task_warehouse parts words.old) result words.new }
{
    if parts.warehouse {
        return Err(ParseFault::SyntaxError);
    }
    words.expect(TokenClass::Equal)?;
    let _name = name(alloc, words)?;
    Ok(TaskParts {
        warehouse: true,
        minutes: parts.minutes,
    })
}

/// Behind SCHEDULE.
#[tactic(auto, unfolding(crate::specs::Read::task_schedule))]
fn task_schedule(
    alloc: Global,
    words: &mut Words<'_>,
    parts: TaskParts,
) -> Result<TaskParts, ParseFault>
    ensures { Reads (spec.task_schedule parts words.old) result words.new }
{
    if parts.minutes.is_some() {
        return Err(ParseFault::SyntaxError);
    }
    words.expect(TokenClass::Equal)?;
    let minutes = read_schedule(alloc, words)?;
    Ok(TaskParts {
        warehouse: parts.warehouse,
        minutes: Some(minutes),
    })
}

/// One option more, if one comes next.
#[tactic(auto, unfolding(crate::specs::Read::task_option))]
fn task_option(
    alloc: Global,
    words: &mut Words<'_>,
    parts: TaskParts,
) -> Result<Option<TaskParts>, ParseFault>
    ensures { Reads (spec.task_option parts words.old) result words.new }
{
    if words.sees_word(b"WAREHOUSE") {
        words.skip();
        return Ok(Some(task_warehouse(alloc, words, parts)?));
    }
    if words.sees_word(b"SCHEDULE") {
        words.skip();
        return Ok(Some(task_schedule(alloc, words, parts)?));
    }
    Ok(None)
}

/// Both options, and a turn that finds no more.
const TURNS: usize = 3;

fn task_parts(alloc: Global, words: &mut Words<'_>) -> Result<TaskParts, ParseFault>
    ensures { Reads (spec.options_from spec.task_option 3 spec.no_task_parts words.old) result
        words.new }
{
    let first = TaskParts {
        warehouse: false,
        minutes: None,
    };
    options(alloc, words, first, TURNS, &task_option)
}

/// The options of a task, in any order: its schedule, if it has one.
#[tactic(auto, unfolding(crate::specs::Read::read_task_options))]
pub fn read_task_options(alloc: Global, words: &mut Words<'_>) -> Result<Option<u64>, ParseFault>
    ensures reads { Reads (spec.read_task_options words.old) result words.new }
    ensures kept { OnErr result (words.new ≡ words.old) }
{
    let mut ahead = Words::new(words.rest());
    let parts = task_parts(alloc, &mut ahead)?;
    *words = ahead;
    Ok(parts.minutes)
}
