ghost use Rattle.std.specs.Prelude.{◌≡◌, IfOk, IsErrOf};
ghost use Rattle.std.specs.Str as strings;
ghost use Rattle.wh_ast.specs.declared.statement.Statement as ast;
ghost use Rattle.wh_grammar.specs.Spelled.{Spells};
ghost use Rattle.wh_cursor.specs.Gives.{Reads};
ghost use Rattle.wh_stmt_parse.specs.Gives.{Gives};
ghost use Rattle.wh_stmt_parse.specs.Laws as laws;
ghost use Rattle.wh_stmt_parse.specs.Read as spec;
ghost use Rattle.wh_stmt_parse.specs.Read.{read_statement, statement_of};

use crate::kept::{LexedText, dynamic_table, task};
use crate::plain::{
    alter, begin, change, commit, drop, execute, replacement, rollback, select, start, stream,
    table,
};
use crate::verb::{Object, Verb, created_object, first_verb};
use sqlite_items::Boxed;
use std::alloc::Global;
use wh_ast::Statement;
use wh_cursor::{ParseFault, Words, tokens_of_text};
use wh_lex::Token;

/// Behind CREATE.
#[tactic(auto, unfolding(crate::specs::Read::read_create))]
fn creation(
    alloc: Global,
    source: LexedText<'_>,
    words: &mut Words<'_>,
) -> Result<Statement, ParseFault>
    ensures { Reads (spec.read_create source.entry.text.now source.entry.tokens.now words.old)
        result words.new }
{
    let object = created_object(words);
    words.skip();
    match object {
        Object::Table => table(alloc, words, false),
        Object::Replacement => replacement(alloc, words),
        Object::Stream => stream(alloc, words),
        Object::Task => task(alloc, source, words),
        Object::DynamicTable => dynamic_table(alloc, source, words),
        Object::Nothing => Err(ParseFault::SyntaxError),
    }
}

/// Behind the first word of a statement that is neither a query nor a change of rows.
fn behind_verb(
    alloc: Global,
    source: LexedText<'_>,
    words: &mut Words<'_>,
    verb: Verb,
) -> Result<Statement, ParseFault>
    ensures { Reads (spec.behind_verb source.entry.text.now source.entry.tokens.now verb words.old)
        result words.new }
{
    match verb {
        Verb::Create => creation(alloc, source, words),
        Verb::Alter => alter(alloc, words),
        Verb::Execute => execute(alloc, words),
        Verb::Drop => drop(alloc, words),
        Verb::Begin => Ok(begin(words)),
        Verb::Start => start(words),
        Verb::Commit => Ok(commit(words)),
        Verb::Rollback => Ok(rollback(words)),
        Verb::Select | Verb::Change => Err(ParseFault::SyntaxError),
    }
}

/// The statement that the tokens begin with.
#[tactic(auto, unfolding(crate::specs::Read::read_words))]
fn front(
    alloc: Global,
    source: LexedText<'_>,
    words: &mut Words<'_>,
) -> Result<Statement, ParseFault>
    ensures { Reads (spec.read_words source.entry.text.now source.entry.tokens.now words.old)
        result words.new }
{
    match first_verb(words) {
        Verb::Select => select(alloc, words),
        Verb::Change => change(alloc, words),
        other => {
            words.skip();
            behind_verb(alloc, source, words, other)
        }
    }
}

/// The statement that all the tokens are that are left.
#[tactic(auto, unfolding(crate::specs::Read::read_all))]
fn all(alloc: Global, source: LexedText<'_>, words: &mut Words<'_>) -> Result<Statement, ParseFault>
    ensures { Reads (spec.read_all source.entry.text.now source.entry.tokens.now words.old)
        result words.new }
{
    let found = Boxed::new(alloc, front(alloc, source, words)?)?;
    words.expect_end()?;
    Ok(found.into_inner())
}

fn statement(alloc: Global, text: &[u8], tokens: &[Token]) -> Result<Statement, ParseFault>
    ensures { Gives result (statement_of text.now tokens.now) }
{
    let mut words = Words::new(tokens);
    all(alloc, LexedText { text, tokens }, &mut words)
}

fn is_utf8(text: &[u8]) -> bool
    ensures { result ≡ strings.is_utf8 text.now }
{
    match str::from_utf8(text) {
        Ok(_) => true,
        Err(_) => false,
    }
}

#[tactic(auto, unfolding(crate::specs::Read::read_statement))]
fn read(alloc: Global, text: &[u8]) -> Result<Statement, ParseFault>
    ensures { Gives result (read_statement text.now) }
{
    if !is_utf8(text) {
        return Err(ParseFault::SyntaxError);
    }
    let found = tokens_of_text(alloc, text)?;
    statement(alloc, text, &found)
}

/// The statement that a text spells, or a syntax error where it spells none.
pub fn parse(alloc: Global, text: &[u8]) -> Result<Statement, ParseFault>
    ensures found { IfOk result (λ s. Spells text.now s) }
    ensures none { IsErrOf result ParseFault.SyntaxError
        → (s : ast.Statement) → Spells text.now s → ⊥ }
    ensures reads { Gives result (read_statement text.now) }
{
    read(alloc, text)
}

/// A text spells at most one statement. What `read_statement` and `request_of` read is what it
/// spells and asks for.
pub fn reading_laws()
    ensures texts { laws.ReadsTexts }
    ensures fixed { laws.TextFixesStatement }
    ensures requests { laws.ReadsRequests }
{}
