ghost use Rattle.std.specs.Prelude.{◌≡◌, ℕ, List, IfOk, IsErrOf, OnErr};
ghost use Rattle.wh_ast.specs.declared.dml.Dml as ast;
ghost use Rattle.wh_grammar.specs.Token as machine;
ghost use Rattle.wh_cursor.specs.Gives.{Reads};
ghost use Rattle.wh_dml_parse.specs.Follow.{IsDmlAt, AreNamesAt};
ghost use Rattle.wh_dml_parse.specs.Laws as laws;
ghost use Rattle.wh_dml_parse.specs.Read.{read_dml, read_names};

use crate::changing::change;
use crate::lists::name_list;
use sqlite_items::{Boxed, Items};
use std::alloc::Global;
use wh_ast::Dml;
use wh_cursor::{ParseFault, Words};
use wh_value::Text;

#[tactic(auto, unfolding(crate::specs::Read::read_dml))]
fn whole_dml(alloc: Global, words: &mut Words<'_>, depth: usize) -> Result<Dml, ParseFault>
    ensures reads { Reads (read_dml depth words.old) result words.new }
    ensures kept { OnErr result (words.new ≡ words.old) }
{
    let mut ahead = Words::new(words.rest());
    let found = Boxed::new(alloc, change(alloc, &mut ahead, depth)?)?;
    ahead.expect_end()?;
    *words = ahead;
    Ok(found.into_inner())
}

/// Takes the INSERT, UPDATE, DELETE or MERGE that all the tokens are. At most `depth` parentheses,
/// NOT and minus signs may stand inside one another.
pub fn dml(alloc: Global, words: &mut Words<'_>, depth: usize) -> Result<Dml, ParseFault>
    ensures found { IfOk result (λ x. IsDmlAt depth words.old x words.new) }
    ensures none { IsErrOf result ParseFault.SyntaxError
        → (x : ast.Dml) (us : List machine.Token) → IsDmlAt depth words.old x us → ⊥ }
    ensures reads { Reads (read_dml depth words.old) result words.new }
    ensures kept { OnErr result (words.new ≡ words.old) }
{
    whole_dml(alloc, words, depth)
}

/// Takes the names, with commas between them, that the tokens begin with.
pub fn names(alloc: Global, words: &mut Words<'_>) -> Result<Items<Text>, ParseFault>
    ensures found { IfOk result (λ names. AreNamesAt words.old names words.new) }
    ensures none { IsErrOf result ParseFault.SyntaxError
        → (names : List (List ℕ)) (us : List machine.Token) → AreNamesAt words.old names us → ⊥ }
    ensures reads { Reads (read_names words.old) result words.new }
    ensures kept { OnErr result (words.new ≡ words.old) }
{
    name_list(alloc, words)
}

/// No tokens are two statements. What `read_dml` and `read_names` read is what stands there.
pub fn reading_laws()
    ensures dml { laws.ReadsDml }
    ensures names { laws.ReadsNames }
    ensures fixed { laws.TokensFixDml }
    ensures frame { laws.NamesFrame }
{}
