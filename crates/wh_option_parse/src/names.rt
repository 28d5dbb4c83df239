//! A stream's name in a text.
ghost use Rattle.std.specs.Prelude.{◌≡◌, Some, None, IfOk, IsErrOf};
ghost use Rattle.wh_option_parse.specs.Read as spec;
ghost use Rattle.wh_option_parse.specs.Alone.{is_alone};

use std::alloc::Global;
use wh_cursor::{ParseFault, Words, name, tokens_of_text};
use wh_lex::Token;
use wh_value::Text;

/// Whether there is one token, from the first byte of so many to the last.
fn is_alone(tokens: &[Token], len: usize) -> bool
    ensures { result ≡ is_alone len tokens.now }
{
    match tokens {
        [only] => only.from() == len as u64 && only.behind() == 0,
        _ => false,
    }
}

/// The name that a text is, with nothing around it.
pub fn name_text(alloc: Global, text: &Text) -> Result<Text, ParseFault>
    ensures found { IfOk result (λ name. spec.name_text_of text.now ≡ Some name) }
    ensures none { IsErrOf result ParseFault.SyntaxError → spec.name_text_of text.now ≡ None }
{
    let bytes = text.as_bytes();
    let found = tokens_of_text(alloc, bytes)?;
    if !is_alone(&found, bytes.len()) {
        return Err(ParseFault::SyntaxError);
    }
    let mut words = Words::new(&found);
    name(alloc, &mut words)
}
