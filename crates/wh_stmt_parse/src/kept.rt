//! Statements that keep parts of their text: CREATE TASK and CREATE DYNAMIC TABLE.

ghost use Rattle.std.specs.Prelude.{◌≡◌, ◌-◌, length, take, drop};
ghost use Rattle.wh_cursor.specs.Gives.{Reads};
ghost use Rattle.wh_grammar.specs.Spelled.{end_of, written};
ghost use Rattle.wh_lex.specs.Front.{text_of};
ghost use Rattle.wh_stmt_parse.specs.Gives.{Gives};
ghost use Rattle.wh_stmt_parse.specs.KeptText as spec;

use crate::options::after;
use crate::plain::MOST_NESTED;
use sqlite_items::{Boxed, Items};
use std::alloc::Global;
use wh_ast::{CreateDynamicTable, CreateTask, Statement, When};
use wh_cursor::{ParseFault, Words, name};
use wh_dml_parse::dml;
use wh_lex::Token;
use wh_option_parse::{condition, table_options, task_options};
use wh_query_parse::query;
use wh_value::Text;

/// What stands in CREATE TASK before WHEN or AS.
#[derive(Drop)]
pub struct TaskHead {
    pub name: Text,
    pub minutes: Option<u64>,
    pub after: Items<Text>,
}

/// A text and its tokens.
#[derive(Clone, Copy)]
pub struct LexedText<'a> {
    pub text: &'a [u8],
    pub tokens: &'a [Token],
}

/// At most so many bytes from the front.
fn front(text: &[u8], count: usize) -> &[u8]
    ensures { result.now ≡ take count text.now }
{
    if count < text.len() {
        &text[..count]
    } else {
        text
    }
}

/// Where the last of the tokens ends.
fn end_behind(first: &Token, more: &[Token]) -> u64
    ensures { result ≡ end_of first.now more.now }
{
    match more.last() {
        Some(last) => last.behind(),
        None => first.behind(),
    }
}

/// The bytes from the first token to the last.
fn bytes_of<'a>(text: &'a [u8], piece: &[Token]) -> &'a [u8]
    ensures { result.now ≡ written text.now piece.now }
{
    let [first, more @ ..] = piece else {
        return &[];
    };
    let from = first.from() as usize;
    let end = end_behind(first, more) as usize;
    let behind = &text[text.len().saturating_sub(from)..];
    front(behind, from.saturating_sub(end))
}

#[tactic(auto, unfolding(wh_lex::specs::Front::text_of))]
fn text_of(alloc: Global, bytes: &[u8]) -> Result<Text, ParseFault>
    ensures { Gives result (text_of bytes.now) }
{
    match Text::from_bytes(alloc, bytes) {
        Some(made) => Ok(made?),
        None => Err(ParseFault::SyntaxError),
    }
}

fn between(tokens: &[Token], from: usize, to: usize) -> &[Token]
    ensures { result.now ≡ spec.between tokens.now from to }
{
    let behind = &tokens[tokens.len().saturating_sub(from)..];
    let count = from.saturating_sub(to);
    if count < behind.len() {
        &behind[..count]
    } else {
        behind
    }
}

/// The text from where so many tokens are left to where so many are.
fn piece(alloc: Global, source: LexedText<'_>, from: usize, to: usize) -> Result<Text, ParseFault>
    ensures { Gives result (text_of
        (written source.entry.text.now (spec.between source.entry.tokens.now from to))) }
{
    text_of(
        alloc,
        bytes_of(source.text, between(source.tokens, from, to)),
    )
}

/// How many tokens are left.
fn here(words: &Words<'_>) -> usize
    ensures { result ≡ length words.now }
{
    words.rest().len()
}

/// Not both a schedule and AFTER.
fn starts_once(minutes: Option<u64>, after: &Items<Text>) -> bool
    ensures { result ≡ spec.starts_once minutes after.now }
{
    minutes.is_none() || after.as_slice().is_empty()
}

/// Behind CREATE TASK.
#[tactic(auto, unfolding(crate::specs::KeptText::read_task_head))]
fn task_head(alloc: Global, words: &mut Words<'_>) -> Result<TaskHead, ParseFault>
    ensures { Reads (spec.read_task_head words.old) result words.new }
{
    let name = name(alloc, words)?;
    let minutes = task_options(alloc, words)?;
    let after = after(alloc, words)?;
    if !starts_once(minutes, &after) {
        return Err(ParseFault::SyntaxError);
    }
    Ok(TaskHead {
        name,
        minutes,
        after,
    })
}

/// `WHEN condition`, or nothing.
#[tactic(auto, unfolding(crate::specs::KeptText::read_guard, crate::specs::KeptText::piece))]
fn guard(
    alloc: Global,
    source: LexedText<'_>,
    words: &mut Words<'_>,
) -> Result<Option<When>, ParseFault>
    ensures { Reads (spec.read_guard source.entry.text.now source.entry.tokens.now words.old)
        result words.new }
{
    if !words.eat_word(b"WHEN") {
        return Ok(None);
    }
    let from = here(words);
    let condition = condition(alloc, words, MOST_NESTED)?;
    let text = piece(alloc, source, from, here(words))?;
    Ok(Some(When { condition, text }))
}

/// Behind CREATE TASK.
#[tactic(auto, unfolding(crate::specs::KeptText::read_task, crate::specs::KeptText::piece))]
pub fn task(
    alloc: Global,
    source: LexedText<'_>,
    words: &mut Words<'_>,
) -> Result<Statement, ParseFault>
    ensures { Reads (spec.read_task source.entry.text.now source.entry.tokens.now words.old)
        result words.new }
{
    let head = Boxed::new(alloc, task_head(alloc, words)?)?;
    let when = Boxed::new(alloc, guard(alloc, source, words)?)?;
    words.expect_word(b"AS")?;
    let from = here(words);
    let body = Boxed::new(alloc, dml(alloc, words, MOST_NESTED)?)?;
    let body_text = piece(alloc, source, from, 0)?;
    let head = head.into_inner();
    Ok(Statement::CreateTask(CreateTask {
        name: head.name,
        minutes: head.minutes,
        after: head.after,
        when: when.into_inner(),
        body: body.into_inner(),
        body_text,
    }))
}

/// Behind CREATE DYNAMIC.
#[tactic(auto, unfolding(crate::specs::KeptText::read_dynamic_table, crate::specs::KeptText::piece))]
pub fn dynamic_table(
    alloc: Global,
    source: LexedText<'_>,
    words: &mut Words<'_>,
) -> Result<Statement, ParseFault>
    ensures { Reads (spec.read_dynamic_table source.entry.text.now
        source.entry.tokens.now words.old)
        result words.new }
{
    words.expect_word(b"TABLE")?;
    let name = name(alloc, words)?;
    let options = table_options(alloc, words)?;
    words.expect_word(b"AS")?;
    let from = here(words);
    let query = query(alloc, words, MOST_NESTED)?;
    let query_text = piece(alloc, source, from, 0)?;
    Ok(Statement::CreateDynamicTable(CreateDynamicTable {
        name,
        lag: options.lag,
        mode: options.mode,
        initialize: options.initialize,
        query,
        query_text,
    }))
}
