ghost use Rattle.std.specs.Prelude.{◌≡◌, ℕ, List, Option, IfOk, IsErrOf, OnErr};
ghost use Rattle.wh_ast.specs.declared.statement.WhenCondition as ast_condition;
ghost use Rattle.wh_ast.specs.declared.statement.Initialize as ast_initialize;
ghost use Rattle.wh_ast.specs.declared.statement.Lag as ast_lag;
ghost use Rattle.wh_ast.specs.declared.statement.RefreshMode as ast_mode;
ghost use Rattle.wh_grammar.specs.Parts.{IsLag, AsksForData};
ghost use Rattle.wh_grammar.specs.Token as machine;
ghost use Rattle.wh_cursor.specs.Gives.{Reads};
ghost use Rattle.wh_option_parse.specs.Follow.{IsConditionAt, AreTaskOptionsAt, AreTableOptionsAt};
ghost use Rattle.wh_option_parse.specs.Laws as laws;
ghost use Rattle.wh_option_parse.specs.Read as spec;
ghost use Rattle.wh_option_parse.specs.View.{seen};

use crate::TableOptions;
use crate::lags::{read_asked, read_lag};
use crate::levels::read_condition;
use crate::table::read_table_options;
use crate::task::read_task_options;
use std::alloc::Global;
use wh_ast::{Lag, WhenCondition};
use wh_cursor::{ParseFault, Words};
use wh_value::Text;

/// Takes the lag that the tokens begin with.
pub fn lag(alloc: Global, words: &mut Words<'_>) -> Result<Lag, ParseFault>
    ensures found { IfOk result (λ l. IsLag words.old l words.new) }
    ensures none { IsErrOf result ParseFault.SyntaxError
        → (l : ast_lag.Lag) (us : List machine.Token) → IsLag words.old l us → ⊥ }
    ensures reads { Reads (spec.read_lag words.old) result words.new }
    ensures kept { OnErr result (words.new ≡ words.old) }
{
    read_lag(alloc, words)
}

/// Takes `SYSTEM$STREAM_HAS_DATA ( text )`: the stream's name.
pub fn asked(alloc: Global, words: &mut Words<'_>) -> Result<Text, ParseFault>
    ensures found { IfOk result (λ name. AsksForData words.old name words.new) }
    ensures none { IsErrOf result ParseFault.SyntaxError
        → (name : List ℕ) (us : List machine.Token) → AsksForData words.old name us → ⊥ }
    ensures reads { Reads (spec.read_asked words.old) result words.new }
    ensures kept { OnErr result (words.new ≡ words.old) }
{
    read_asked(alloc, words)
}

/// Takes the condition that the tokens begin with, to its end. At most `depth` parentheses, NOTs
/// and questions may stand inside one another.
pub fn condition(
    alloc: Global,
    words: &mut Words<'_>,
    depth: usize,
) -> Result<WhenCondition, ParseFault>
    ensures found { IfOk result (λ x. IsConditionAt depth words.old x words.new) }
    ensures none { IsErrOf result ParseFault.SyntaxError
        → (x : ast_condition.WhenCondition) (us : List machine.Token)
        → IsConditionAt depth words.old x us → ⊥ }
    ensures reads { Reads (spec.read_condition depth words.old) result words.new }
    ensures kept { OnErr result (words.new ≡ words.old) }
{
    read_condition(alloc, words, depth)
}

/// Takes the options of a task, to their end: its schedule in minutes, if they have one.
pub fn task_options(alloc: Global, words: &mut Words<'_>) -> Result<Option<u64>, ParseFault>
    ensures found { IfOk result (λ minutes. AreTaskOptionsAt words.old minutes words.new) }
    ensures none { IsErrOf result ParseFault.SyntaxError
        → (minutes : Option ℕ) (us : List machine.Token)
        → AreTaskOptionsAt words.old minutes us → ⊥ }
    ensures reads { Reads (spec.read_task_options words.old) result words.new }
    ensures kept { OnErr result (words.new ≡ words.old) }
{
    read_task_options(alloc, words)
}

/// Takes the options of a dynamic table, to their end.
pub fn table_options(alloc: Global, words: &mut Words<'_>) -> Result<TableOptions, ParseFault>
    ensures found { IfOk result (λ options. AreTableOptionsAt words.old options.lag options.mode
        options.initialize words.new) }
    ensures none { IsErrOf result ParseFault.SyntaxError
        → (l : ast_lag.Lag) (m : ast_mode.RefreshMode) (i : ast_initialize.Initialize)
        → (us : List machine.Token) → AreTableOptionsAt words.old l m i us → ⊥ }
    ensures reads { Reads (spec.read_table_options words.old) (seen result) words.new }
    ensures kept { OnErr result (words.new ≡ words.old) }
{
    read_table_options(alloc, words)
}

/// What each of the calls reads is what stands there; and where conditions and options stand
/// before other tokens, they are the same.
pub fn reading_laws()
    ensures lags { laws.ReadsLags }
    ensures asked { laws.ReadsAsked }
    ensures conditions { laws.ReadsConditions }
    ensures task_options { laws.ReadsTaskOptions }
    ensures table_options { laws.ReadsTableOptions }
    ensures condition_frame { laws.ConditionFrame }
    ensures condition_back { laws.ConditionBack }
    ensures task_options_frame { laws.TaskOptionsFrame }
    ensures table_options_frame { laws.TableOptionsFrame }
{}
