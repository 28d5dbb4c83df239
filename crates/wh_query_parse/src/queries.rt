ghost use Rattle.std.specs.Prelude.{◌≡◌, ℕ, List, Option, IfOk, IsErrOf, OnErr};
ghost use Rattle.wh_ast.specs.declared.expr.Expr as ast_expr;
ghost use Rattle.wh_ast.specs.declared.query.Query as ast_query;
ghost use Rattle.wh_ast.specs.declared.query.FromItem as ast_source;
ghost use Rattle.wh_grammar.specs.Token as machine;
ghost use Rattle.wh_cursor.specs.Gives.{Reads};
ghost use Rattle.wh_query_parse.specs.Follow.{IsQueryAt, IsSourceAt, IsAliasAt, IsFilterAt};
ghost use Rattle.wh_query_parse.specs.Laws as laws;
ghost use Rattle.wh_query_parse.specs.Read.{read_query, read_source, read_alias, read_filter};

use crate::grammar::{whole_query, whole_source};
use crate::parts::{optional_alias, optional_filter};
use std::alloc::Global;
use wh_ast::{Expr, FromItem, Query};
use wh_cursor::{ParseFault, Words};
use wh_value::Text;

/// Takes the query that the tokens begin with: behind it stands nothing, a `)` or ORDER. At most
/// `depth` parentheses, NOT and minus signs may stand inside one another.
pub fn query(alloc: Global, words: &mut Words<'_>, depth: usize) -> Result<Query, ParseFault>
    ensures found { IfOk result (λ q. IsQueryAt depth words.old q words.new) }
    ensures none { IsErrOf result ParseFault.SyntaxError
        → (q : ast_query.Query) (us : List machine.Token) → IsQueryAt depth words.old q us → ⊥ }
    ensures reads { Reads (read_query depth words.old) result words.new }
    ensures kept { OnErr result (words.new ≡ words.old) }
{
    whole_query(alloc, words, depth)
}

/// Takes the source that the tokens begin with: a name with or without an alias, or a query in
/// parentheses with one.
pub fn source(alloc: Global, words: &mut Words<'_>, depth: usize) -> Result<FromItem, ParseFault>
    ensures found { IfOk result (λ x. IsSourceAt depth words.old x words.new) }
    ensures none { IsErrOf result ParseFault.SyntaxError
        → (x : ast_source.FromItem) (us : List machine.Token) →
        IsSourceAt depth words.old x us → ⊥ }
    ensures reads { Reads (read_source depth words.old) result words.new }
    ensures kept { OnErr result (words.new ≡ words.old) }
{
    whole_source(alloc, words, depth)
}

/// Takes an alias, with or without AS, if one comes next.
pub fn alias(alloc: Global, words: &mut Words<'_>) -> Result<Option<Text>, ParseFault>
    ensures found { IfOk result (λ x. IsAliasAt words.old x words.new) }
    ensures none { IsErrOf result ParseFault.SyntaxError
        → (x : Option (List ℕ)) (us : List machine.Token) → IsAliasAt words.old x us → ⊥ }
    ensures reads { Reads (read_alias words.old) result words.new }
    ensures kept { OnErr result (words.new ≡ words.old) }
{
    optional_alias(alloc, words)
}

/// Takes the condition behind WHERE, if WHERE comes next.
pub fn filter(
    alloc: Global,
    words: &mut Words<'_>,
    depth: usize,
) -> Result<Option<Expr>, ParseFault>
    ensures found { IfOk result (λ x. IsFilterAt depth words.old x words.new) }
    ensures none { IsErrOf result ParseFault.SyntaxError
        → (x : Option ast_expr.Expr) (us : List machine.Token)
        → IsFilterAt depth words.old x us → ⊥ }
    ensures reads { Reads (read_filter depth words.old) result words.new }
    ensures kept { OnErr result (words.new ≡ words.old) }
{
    optional_filter(alloc, words, depth)
}

/// What each reading function reads is what stands there. No tokens begin with two queries, and a
/// query or a source is a front of them.
#[tactic(auto, using(crate::proofs::Reading::tokens_fix_query, crate::proofs::Reading::query_is_front, crate::proofs::Reading::source_is_front))]
pub fn reading_laws()
    ensures queries { laws.ReadsQueries }
    ensures sources { laws.ReadsSources }
    ensures aliases { laws.ReadsAliases }
    ensures filters { laws.ReadsFilters }
    ensures fixed { laws.TokensFixQuery }
    ensures query_front { laws.QueryIsFront }
    ensures source_front { laws.SourceIsFront }
{}
