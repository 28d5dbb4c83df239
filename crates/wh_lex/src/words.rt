ghost use Rattle.std.specs.Prelude.{◌≡◌, ◌≤◌, ◌==◌, map, length};
ghost use Rattle.std.specs.List.{list_all};
ghost use Rattle.wh_grammar.specs.Bytes as byte_class;
ghost use Rattle.wh_lex.specs.Front as spec;
ghost use Rattle.wh_lex.specs.View.{front_view};
ghost use Rattle.wh_lex.specs.Gives.{Gives};

use crate::bytes::{is_digit, is_word_byte, upper};
use crate::front::Front;
use crate::quotes::made_text;
use crate::{Kind, LexFault};
use std::alloc::Global;
use wh_value::Text;

/// The least number of 19 digits.
const LIMIT: u64 = 1_000_000_000_000_000_000;

/// How many bytes at the front are of words.
fn word_len(text: &[u8]) -> usize
    ensures is { result ≡ spec.word_len text.now }
    ensures within { result ≤ length text.now }
{
    for (i, byte) in text.iter().enumerate() {
        if !is_word_byte(*byte) {
            return i;
        }
    }
    text.len()
}

/// The word at the front, in upper case, and what follows it.
pub fn word(alloc: Global, text: &[u8]) -> Result<Front<'_>, LexFault>
    ensures { Gives front_view result (spec.word_front text.now) }
{
    let len = word_len(text);
    let word = upper_case(alloc, &text[..len])?;
    Ok(Front {
        token: Some(Kind::Word(word)),
        rest: &text[len..],
    })
}

/// The bytes of a word in upper case.
fn upper_case(alloc: Global, word: &[u8]) -> Result<Text, LexFault>
    ensures { Gives (λ made. made) result (spec.text_of (map byte_class.upper word.now)) }
{
    if is_upper(word) {
        return made_text(alloc, word);
    }
    let letters: Vec<u8> = word.iter().map(|byte| upper(*byte)).collect(alloc)?;
    made_text(alloc, &letters)
}

/// Whether each byte is as upper case has it.
fn is_upper(word: &[u8]) -> bool
    ensures { result ≡ list_all (λ byte. byte_class.upper byte == byte) word.now }
{
    word.iter().all(|byte| upper(*byte) == *byte)
}

/// The number at the front, and what follows it.
pub fn number(text: &[u8]) -> Result<Front<'_>, LexFault>
    ensures { Gives front_view result (spec.number_front text.now) }
{
    let len = word_len(text);
    let Some(number) = number_of(&text[..len]) else {
        return Err(LexFault::SyntaxError);
    };
    Ok(Front {
        token: Some(Kind::Number(number)),
        rest: &text[len..],
    })
}

/// The number that digits spell, where it has at most 18 digits beside zeros in front.
fn number_of(digits: &[u8]) -> Option<u64>
    ensures { result ≡ spec.number_from 0 digits.now }
{
    let mut number: u64 = 0;
    for byte in digits {
        if !is_digit(*byte) {
            return None;
        }
        number = number * 10 + u64::from(*byte - b'0');
        if number >= LIMIT {
            return None;
        }
    }
    Some(number)
}
