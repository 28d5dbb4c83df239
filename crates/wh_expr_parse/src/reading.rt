ghost use Rattle.std.specs.Prelude.{◌≡◌, List, IfOk, IsErrOf, OnErr};
ghost use Rattle.wh_ast.specs.declared.expr.Expr as ast;
ghost use Rattle.wh_expr_parse.specs.Laws.{IsExprAt};
ghost use Rattle.wh_grammar.specs.Token as machine;
ghost use Rattle.wh_cursor.specs.Gives.{Reads};
ghost use Rattle.wh_expr_parse.specs.Laws as laws;
ghost use Rattle.wh_expr_parse.specs.Read.{read_expr, read_exprs};

use crate::grammar::whole;
use crate::literal::{literal_at, stands_alone};
use crate::tokens::Tokens;
use sqlite_items::Items;
use std::alloc::Global;
use wh_ast::Expr;
use wh_cursor::{ParseFault, Words, binds, listed};

/// How many operators and IN items an expression may have.
const ROOM: usize = 1000;

#[tactic(auto, using(crate::proofs::AloneSteps::alone_reads))]
fn whole_expr(alloc: Global, words: &mut Words<'_>, depth: usize) -> Result<Expr, ParseFault>
    ensures reads { Reads (read_expr depth words.old) result words.new }
    ensures kept { OnErr result (words.new ≡ words.old) }
{
    // The values of an INSERT are mostly these: they needn't go through the levels of operators.
    if stands_alone(words.rest()) {
        let literal = literal_at(alloc, words.rest())?;
        words.skip();
        return Ok(literal);
    }
    leveled_expr(alloc, words, depth)
}

/// Through all the levels of operators.
#[tactic(auto, unfolding(crate::specs::Read::read_expr))]
fn leveled_expr(alloc: Global, words: &mut Words<'_>, depth: usize) -> Result<Expr, ParseFault>
    ensures reads { Reads (read_expr depth words.old) result words.new }
    ensures kept { OnErr result (words.new ≡ words.old) }
{
    let mut tokens = Tokens::new(Words::new(words.rest()), ROOM);
    let x = whole(alloc, &mut tokens, depth)?;
    if binds(tokens.key()) != 0 {
        return Err(ParseFault::SyntaxError);
    }
    *words = tokens.into_words();
    Ok(x.into_inner())
}

/// Takes the expression that the tokens begin with. At most `depth` parentheses, NOT and minus
/// signs may stand inside one another, and no token behind the expression may go on with it.
pub fn expr(alloc: Global, words: &mut Words<'_>, depth: usize) -> Result<Expr, ParseFault>
    ensures found { IfOk result (λ x. IsExprAt depth words.old x words.new) }
    ensures none { IsErrOf result ParseFault.SyntaxError
        → (x : ast.Expr) (us : List machine.Token) → IsExprAt depth words.old x us → ⊥ }
    ensures reads { Reads (read_expr depth words.old) result words.new }
    ensures kept { OnErr result (words.new ≡ words.old) }
{
    whole_expr(alloc, words, depth)
}

/// Takes one expression or more, with commas between them.
#[tactic(auto, unfolding(crate::specs::Read::read_exprs))]
pub fn exprs(alloc: Global, words: &mut Words<'_>, depth: usize) -> Result<Items<Expr>, ParseFault>
    ensures reads { Reads (read_exprs depth words.old) result words.new }
    ensures kept { OnErr result (words.new ≡ words.old) }
{
    listed(alloc, words, depth, &whole_expr)
}

/// No tokens begin with two expressions, and an expression is a front of them. What `read_expr`
/// reads is what stands there.
pub fn reading_laws()
    ensures exprs { laws.ReadsExprs }
    ensures fixed { laws.TokensFixExpr }
    ensures front { laws.ExprIsFront }
{}
