//! What the texts of a commit mean.

ghost use Rattle.std.specs.Prelude.{◌≡◌, Some, map};
ghost use Rattle.wh_cursor.specs.Gives.{Reads};
ghost use Rattle.wh_grammar.specs.Spelled.{tokens_of};
ghost use Rattle.wh_record.specs.View.{change_of, commit_of, task_change_of};
ghost use Rattle.wh_record.specs.View.{text_change_of, text_commit_of, texts_in, task_in};
ghost use Rattle.wh_record.specs.View.{query_texts_in, dynamic_in, dynamic_change_of};
ghost use Rattle.wh_state.specs.Commit as machine;
ghost use Rattle.wh_task.specs.View.{body_of};
ghost use Rattle.wh_dynamic.specs.View.{query_of};
ghost use Rattle.wh_stmt_parse.specs.Gives.{Gives};
ghost use Rattle.wh_commit_parse.specs.Gives.{GivesAs};
ghost use Rattle.wh_commit_parse.specs.Meant as spec;

use sqlite_items::Boxed;
use std::alloc::Global;
use wh_ast::{Dml, Query, Statement, When, WhenCondition};
use wh_cursor::{ParseFault, Words, tokens_of_text};
use wh_dynamic::DynamicQuery;
use wh_lex::Token;
use wh_option_parse::condition;
use wh_record::{
    ChangeIn, CommitIn, DynamicChange, DynamicChangeIn, DynamicTexts, OutlinedChange,
    OutlinedCommit, TaskChange, TaskChangeIn, TaskTexts, TextChange, TextCommit,
};
use wh_stmt_parse::parse;
use wh_task::TaskBody;
use wh_value::Text;

/// How many parentheses and NOTs may stand inside one another.
const MOST_NESTED: usize = 64;

/// The condition that all the tokens are that are left.
#[tactic(auto, unfolding(crate::specs::Meant::read_whole))]
fn whole(alloc: Global, words: &mut Words<'_>) -> Result<WhenCondition, ParseFault>
    ensures { Reads (spec.read_whole words.old) result words.new }
{
    let found = condition(alloc, words, MOST_NESTED)?;
    words.expect_end()?;
    Ok(found)
}

fn condition_among(alloc: Global, tokens: &[Token]) -> Result<WhenCondition, ParseFault>
    ensures { Gives result (spec.condition_among (Some tokens.now)) }
{
    let mut words = Words::new(tokens);
    whole(alloc, &mut words)
}

#[tactic(auto, unfolding(crate::specs::Meant::condition_of))]
fn condition_of(alloc: Global, text: &[u8]) -> Result<WhenCondition, ParseFault>
    ensures { Gives result (spec.condition_of text.now) }
{
    let tokens = tokens_of_text(alloc, text)?;
    condition_among(alloc, &tokens)
}

/// The condition of a text that may be empty, where there is none.
#[tactic(auto, unfolding(crate::specs::Meant::condition_in))]
fn condition_in(alloc: Global, text: &[u8]) -> Result<Option<WhenCondition>, ParseFault>
    ensures { Gives result (spec.condition_in text.now) }
{
    match text {
        [] => Ok(None),
        [_, ..] => Ok(Some(condition_of(alloc, text)?)),
    }
}

#[tactic(auto, unfolding(crate::specs::Meant::when_of))]
fn when_of(alloc: Global, text: Text) -> Result<Option<Boxed<When>>, ParseFault>
    ensures { Gives result (spec.when_of text) }
{
    match condition_in(alloc, text.as_bytes())? {
        None => Ok(None),
        Some(condition) => Ok(Some(Boxed::new(alloc, When { condition, text })?)),
    }
}

/// The changing statement that a text spells.
#[tactic(auto, unfolding(crate::specs::Meant::dml_of))]
fn dml_of(alloc: Global, text: &[u8]) -> Result<Boxed<Dml>, ParseFault>
    ensures { Gives result (spec.dml_of text.now) }
{
    match parse(alloc, text)? {
        Statement::Dml(found) => Ok(Boxed::new(alloc, found)?),
        _ => Err(ParseFault::SyntaxError),
    }
}

#[tactic(auto, unfolding(crate::specs::Meant::body_meant))]
fn body_meant(alloc: Global, texts: TaskTexts) -> Result<TaskBody, ParseFault>
    ensures { GivesAs body_of result (spec.body_meant (texts_in texts)) }
{
    let TaskTexts { when, body } = texts;
    let when = when_of(alloc, when)?;
    let meant = dml_of(alloc, body.as_bytes())?;
    Ok(TaskBody {
        when,
        body: meant,
        body_text: body,
    })
}

#[tactic(auto, unfolding(crate::specs::Meant::change_meant))]
fn task_meant(alloc: Global, task: TaskChangeIn<TaskTexts>) -> Result<TaskChange, ParseFault>
    ensures { GivesAs (λ t. machine.CreatesTask (task_change_of t)) result
        (spec.change_meant (machine.CreatesTask (task_in texts_in task))) }
{
    let TaskChangeIn {
        id,
        name,
        minutes,
        after,
        runs,
    } = task;
    let runs = body_meant(alloc, runs)?;
    Ok(TaskChangeIn {
        id,
        name,
        minutes,
        after,
        runs,
    })
}

/// The query that a text spells; it has no order.
#[tactic(auto, unfolding(crate::specs::Meant::query_of))]
fn tree_of(alloc: Global, text: &[u8]) -> Result<Boxed<Query>, ParseFault>
    ensures { Gives result (spec.query_of text.now) }
{
    match parse(alloc, text)? {
        Statement::Select(query, sorts) => match sorts.as_slice() {
            [] => Ok(Boxed::new(alloc, query)?),
            [_, ..] => Err(ParseFault::SyntaxError),
        },
        _ => Err(ParseFault::SyntaxError),
    }
}

#[tactic(auto, unfolding(crate::specs::Meant::query_meant))]
fn query_meant(alloc: Global, texts: DynamicTexts) -> Result<DynamicQuery, ParseFault>
    ensures { GivesAs query_of result (spec.query_meant (query_texts_in texts)) }
{
    let DynamicTexts { text, sources } = texts;
    let tree = tree_of(alloc, text.as_bytes())?;
    Ok(DynamicQuery {
        tree,
        text,
        sources,
    })
}

#[tactic(auto, unfolding(crate::specs::Meant::change_meant))]
fn dynamic_meant(
    alloc: Global,
    table: DynamicChangeIn<DynamicTexts>,
) -> Result<DynamicChange, ParseFault>
    ensures { GivesAs (λ t. machine.CreatesDynamic (dynamic_change_of t)) result
        (spec.change_meant (machine.CreatesDynamic (dynamic_in query_texts_in table))) }
{
    let DynamicChangeIn {
        id,
        name,
        lag,
        is_incremental,
        query,
        columns,
    } = table;
    let query = query_meant(alloc, query)?;
    Ok(DynamicChangeIn {
        id,
        name,
        lag,
        is_incremental,
        query,
        columns,
    })
}

#[tactic(auto, unfolding(crate::specs::Meant::change_meant))]
fn change_meant(alloc: Global, change: TextChange) -> Result<OutlinedChange, ParseFault>
    ensures { GivesAs change_of result (spec.change_meant (text_change_of change)) }
{
    match change {
        ChangeIn::CreatesTable(table) => Ok(ChangeIn::CreatesTable(table)),
        ChangeIn::Drops(id) => Ok(ChangeIn::Drops(id)),
        ChangeIn::PushesVersion(version) => Ok(ChangeIn::PushesVersion(version)),
        ChangeIn::CreatesStream(stream) => Ok(ChangeIn::CreatesStream(stream)),
        ChangeIn::SetsOffset { id, offset } => Ok(ChangeIn::SetsOffset { id, offset }),
        ChangeIn::CreatesTask(task) => Ok(ChangeIn::CreatesTask(task_meant(alloc, task)?)),
        ChangeIn::SetsTask { id, state } => Ok(ChangeIn::SetsTask { id, state }),
        ChangeIn::StartsRun { root, tasks } => Ok(ChangeIn::StartsRun { root, tasks }),
        ChangeIn::FinishesTask { root, task, ending } => {
            Ok(ChangeIn::FinishesTask { root, task, ending })
        }
        ChangeIn::CreatesDynamic(table) => {
            Ok(ChangeIn::CreatesDynamic(dynamic_meant(alloc, table)?))
        }
        ChangeIn::SetsDynamic { id, state } => Ok(ChangeIn::SetsDynamic { id, state }),
        ChangeIn::SetsGroups { id, groups } => Ok(ChangeIn::SetsGroups { id, groups }),
    }
}

fn changes_meant(alloc: Global, changes: Vec<TextChange>) -> Result<Vec<OutlinedChange>, ParseFault>
    ensures { GivesAs (λ cs. map change_of cs.items) result
        (spec.changes_meant (map text_change_of changes.items)) }
{
    let mut made = Vec::new(alloc);
    for change in changes {
        let meant = change_meant(alloc, change)?;
        if made.reserve(1).is_err() {
            return Err(ParseFault::OutOfMemory);
        }
        made.push_reserved(meant);
    }
    Ok(made)
}

/// The commit with what its texts mean, or a syntax error where one of them spells nothing that may
/// stand there.
#[tactic(auto, unfolding(crate::specs::Meant::commit_meant))]
pub(crate) fn commit_meant(alloc: Global, commit: TextCommit) -> Result<OutlinedCommit, ParseFault>
    ensures { GivesAs commit_of result (spec.commit_meant (text_commit_of commit)) }
{
    let CommitIn { stamp, changes } = commit;
    let changes = changes_meant(alloc, changes)?;
    Ok(CommitIn { stamp, changes })
}
