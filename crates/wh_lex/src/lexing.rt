ghost use Rattle.std.specs.Prelude.{◌≡◌, ◌++◌, List, option_map};
ghost use Rattle.std.specs.Prelude.{IfSome, IfOk, OnOk, IsErrOf, IsOkUnless};
ghost use Rattle.wh_grammar.specs.Token.{Placed};
ghost use Rattle.wh_grammar.specs.Lexing.{HasTokens};
ghost use Rattle.wh_lex.specs.Laws.{TextFixesTokens, ReadsTokens};
ghost use Rattle.wh_lex.specs.Front.{placed_at};
ghost use Rattle.wh_lex.specs.Gives.{Gives};
ghost use Rattle.wh_lex.specs.Read.{read_tokens};
ghost use Rattle.wh_lex.specs.View.{token_of, IsWithin};

use crate::front::front_of;
use crate::{Kind, LexFault, Token};
use std::alloc::Global;

// A short statement has no more tokens than that, and its list never grows.
const USUAL_TOKENS: usize = 16;

/// The tokens of a text, or a syntax error where it has none.
pub fn tokens(alloc: Global, text: &[u8]) -> Result<Vec<Token>, LexFault>
    ensures found { IfOk result (λ ts. HasTokens text.now ts.items) }
    ensures none { IsErrOf result LexFault.SyntaxError
        → (ts : List Placed) → HasTokens text.now ts → ⊥ }
    ensures reads { Gives (λ ts. ts.items) result (read_tokens text.now) }
{
    let mut made = Vec::with_capacity(alloc, USUAL_TOKENS)?;
    let mut rest = text;
    'fronts: loop {
        if rest.is_empty() {
            return Ok(made);
        }
        let front = front_of(alloc, rest)?;
        push_token(&mut made, front.token, rest.len(), front.rest.len())?;
        rest = front.rest;
    }
}

/// Adds a token, if there is one, that begins where `from` bytes are left and ends where `behind`
/// are.
fn push_token(
    made: &mut Vec<Token>,
    token: Option<Kind>,
    from: usize,
    behind: usize,
) -> Result<(), LexFault>
    requires { IfSome token (λ kind. IsWithin (token_of kind)) }
    ensures ok { OnOk result (made.new.items
        ≡ made.old.items ++ placed_at (option_map token_of token) from behind) }
    ensures memory { IsOkUnless result LexFault.OutOfMemory }
{
    if let Some(kind) = token {
        made.push(Token::new(kind, from as u64, behind as u64))?;
    }
    Ok(())
}

/// No text has two lists of tokens. `read_tokens` gives those that it has.
pub fn text_fixes_tokens()
    ensures tokens { TextFixesTokens }
    ensures reads { ReadsTokens }
{}
