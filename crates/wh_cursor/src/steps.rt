//! The steps that rules of statements are made of.

ghost use Rattle.std.specs.Prelude.{◌≡◌, if◌then◌else◌, OnErr};
ghost use Rattle.wh_grammar.specs.Spelled.{tokens_of};
ghost use Rattle.wh_cursor.specs.Gives.{Reads};
ghost use Rattle.wh_cursor.specs.Steps.{tail, sees};
ghost use Rattle.wh_cursor.specs.Steps as spec;
ghost use Rattle.wh_lex.specs.View.{token_of};

use crate::key::same_key;
use crate::{ParseFault, TokenClass, Words};
use std::alloc::Global;
use wh_lex::{Kind, Token};
use wh_value::Text;

impl<'a> Words<'a> {
    /// Whether a sign, or a word of expressions, comes next.
    #[tactic(auto, unfolding(crate::specs::Steps::sees))]
    pub fn sees(&self, key: TokenClass) -> bool
        ensures { result ≡ sees key self.now }
    {
        same_key(self.key(), key)
    }

    /// Takes it, if it comes next.
    pub fn eat(&mut self, key: TokenClass) -> bool
        ensures found { result ≡ sees key self.old }
        ensures after { self.new ≡ (if sees key self.old then tail self.old else self.old) }
    {
        let found = self.sees(key);
        if found {
            self.skip();
        }
        found
    }

    /// Takes it, and nothing else.
    #[tactic(auto, unfolding(crate::specs::Steps::expect_key))]
    pub fn expect(&mut self, key: TokenClass) -> Result<(), ParseFault>
        ensures reads { Reads (spec.expect_key key self.old) result self.new }
        ensures kept { OnErr result (self.new ≡ self.old) }
    {
        if self.sees(key) {
            self.skip();
            Ok(())
        } else {
            Err(ParseFault::SyntaxError)
        }
    }

    /// Whether a word, written here in upper case, comes next.
    pub fn sees_word(&self, word: &[u8]) -> bool
        ensures { result ≡ spec.sees_word word.now self.now }
    {
        word_stands(self.rest(), word)
    }

    /// Takes it, if it comes next.
    pub fn eat_word(&mut self, word: &[u8]) -> bool
        ensures found { result ≡ spec.sees_word word.now self.old }
        ensures after { self.new
            ≡ (if spec.sees_word word.now self.old then tail self.old else self.old) }
    {
        let found = self.sees_word(word);
        if found {
            self.skip();
        }
        found
    }

    /// Takes it, and nothing else.
    #[tactic(auto, unfolding(crate::specs::Steps::expect_word))]
    pub fn expect_word(&mut self, word: &[u8]) -> Result<(), ParseFault>
        ensures reads { Reads (spec.expect_word word.now self.old) result self.new }
        ensures kept { OnErr result (self.new ≡ self.old) }
    {
        if self.sees_word(word) {
            self.skip();
            Ok(())
        } else {
            Err(ParseFault::SyntaxError)
        }
    }

    /// Takes a word, in upper case.
    pub fn word(&mut self, alloc: Global) -> Result<Text, ParseFault>
        ensures reads { Reads (spec.read_word self.old) result self.new }
        ensures kept { OnErr result (self.new ≡ self.old) }
    {
        let word = word_at(alloc, self.rest())?;
        self.skip();
        Ok(word)
    }

    /// Takes a text.
    pub fn text(&mut self, alloc: Global) -> Result<Text, ParseFault>
        ensures reads { Reads (spec.read_text self.old) result self.new }
        ensures kept { OnErr result (self.new ≡ self.old) }
    {
        let text = text_at(alloc, self.rest())?;
        self.skip();
        Ok(text)
    }

    /// Takes a number, of at most 18 digits.
    pub fn number(&mut self) -> Result<u64, ParseFault>
        ensures reads { Reads (spec.read_number self.old) result self.new }
        ensures kept { OnErr result (self.new ≡ self.old) }
    {
        let number = number_at(self.rest())?;
        self.skip();
        Ok(number)
    }

    /// Takes nothing, and fails where a token is left.
    #[tactic(auto, unfolding(crate::specs::Steps::read_end))]
    pub fn expect_end(&self) -> Result<(), ParseFault>
        ensures { Reads (spec.read_end self.now) result self.now }
    {
        match self.rest() {
            [] => Ok(()),
            [_, ..] => Err(ParseFault::SyntaxError),
        }
    }
}

#[tactic(auto, unfolding(crate::specs::Steps::sees_word))]
fn word_stands(tokens: &[Token], word: &[u8]) -> bool
    ensures { result ≡ spec.sees_word word.now (tokens_of tokens.now) }
{
    match tokens {
        [] => false,
        [first, ..] => is_that_word(first.kind(), word),
    }
}

fn is_that_word(kind: &Kind, word: &[u8]) -> bool
    ensures { result ≡ spec.is_that_word word.now (token_of kind.now) }
{
    match kind {
        Kind::Word(text) => text.as_bytes() == word,
        _ => false,
    }
}

#[tactic(auto, unfolding(crate::specs::Steps::read_word))]
fn word_at(alloc: Global, tokens: &[Token]) -> Result<Text, ParseFault>
    ensures { Reads (spec.read_word (tokens_of tokens.now)) result (tail (tokens_of tokens.now)) }
{
    let [first, ..] = tokens else {
        return Err(ParseFault::SyntaxError);
    };
    match first.kind() {
        Kind::Word(word) => Ok(word.copy(alloc)?),
        _ => Err(ParseFault::SyntaxError),
    }
}

#[tactic(auto, unfolding(crate::specs::Steps::read_text))]
fn text_at(alloc: Global, tokens: &[Token]) -> Result<Text, ParseFault>
    ensures { Reads (spec.read_text (tokens_of tokens.now)) result (tail (tokens_of tokens.now)) }
{
    let [first, ..] = tokens else {
        return Err(ParseFault::SyntaxError);
    };
    match first.kind() {
        Kind::Text(text) => Ok(text.copy(alloc)?),
        _ => Err(ParseFault::SyntaxError),
    }
}

#[tactic(auto, unfolding(crate::specs::Steps::read_number))]
fn number_at(tokens: &[Token]) -> Result<u64, ParseFault>
    ensures { Reads (spec.read_number (tokens_of tokens.now)) result (tail (tokens_of tokens.now)) }
{
    let [first, ..] = tokens else {
        return Err(ParseFault::SyntaxError);
    };
    match first.kind() {
        Kind::Number(number) => Ok(*number),
        _ => Err(ParseFault::SyntaxError),
    }
}
