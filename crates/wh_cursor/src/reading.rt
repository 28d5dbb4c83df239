ghost use Rattle.std.specs.Prelude.{◌≡◌, ℕ, List, Some, None, IfOk, IsErrOf, OnErr};
ghost use Rattle.wh_grammar.specs.Lexing.{HasTokens};
ghost use Rattle.wh_grammar.specs.Name.{IsName};
ghost use Rattle.wh_grammar.specs.Token as machine;
ghost use Rattle.wh_lex.specs.Read.{read_tokens};
ghost use Rattle.wh_cursor.specs.Gives.{Reads};
ghost use Rattle.wh_cursor.specs.Laws as laws;
ghost use Rattle.wh_cursor.specs.Steps.{read_name};

use crate::{ParseFault, Words};
use std::alloc::Global;
use wh_lex::{LexFault, Token, tokens};
use wh_value::Text;

/// The tokens of a text, or a syntax error where it has none.
pub fn tokens_of_text(alloc: Global, text: &[u8]) -> Result<Vec<Token>, ParseFault>
    ensures found { IfOk result (λ ts. HasTokens text.now ts.items) }
    ensures none { IsErrOf result ParseFault.SyntaxError
        → (ts : List machine.Placed) → HasTokens text.now ts → ⊥ }
    ensures reads { IfOk result (λ ts. read_tokens text.now ≡ Some ts.items) }
    ensures unread { IsErrOf result ParseFault.SyntaxError → read_tokens text.now ≡ None }
{
    match tokens(alloc, text) {
        Ok(found) => Ok(found),
        Err(LexFault::SyntaxError) => Err(ParseFault::SyntaxError),
        Err(LexFault::OutOfMemory) => Err(ParseFault::OutOfMemory),
    }
}

/// Takes the name that the tokens begin with: a word that isn't reserved, or a quoted name.
pub fn name(alloc: Global, words: &mut Words<'_>) -> Result<Text, ParseFault>
    ensures found { IfOk result (λ name. IsName words.old name words.new) }
    ensures none { IsErrOf result ParseFault.SyntaxError
        → (name : List ℕ) (us : List machine.Token) → IsName words.old name us → ⊥ }
    ensures reads { Reads (read_name words.old) result words.new }
    ensures kept { OnErr result (words.new ≡ words.old) }
{
    words.name(alloc)
}

/// What `read_name` reads is the name that stands there. A name is a front of the tokens.
pub fn reading_laws()
    ensures names { laws.ReadsNames }
    ensures front { laws.NameIsFront }
{}
