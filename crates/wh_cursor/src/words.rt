ghost use Rattle.std.specs.Prelude.{◌≡◌, [], ◌∷◌, OnErr};
ghost use Rattle.wh_grammar.specs.Name as machine_name;
ghost use Rattle.wh_grammar.specs.Spelled.{tokens_of};
ghost use Rattle.wh_cursor.specs.Gives.{Reads};
ghost use Rattle.wh_cursor.specs.Keys.{key_of};
ghost use Rattle.wh_cursor.specs.Binds.{binds};
ghost use Rattle.wh_cursor.specs.Steps as spec;
ghost use Rattle.wh_cursor.specs.Steps.{tail, sees};
ghost use Rattle.wh_lex.specs.View.{token_of};

use crate::ParseFault;
use crate::key::{TokenClass, binds, kind_key, same_key};
use crate::reserved::{is_call, is_reserved};
use std::alloc::Global;
use std::marker::Model;
use wh_lex::{Kind, Sign, Token};
use wh_value::Text;

/// The tokens that are left of a text. Contracts see them without their places.
#[derive(Debug, Drop)]
pub struct Words<'a> {
    rest: &'a [Token],
}

impl<'a> Model for Words<'a> {
    ghost use Rattle.std.specs.Prelude.{List};
    ghost use Rattle.std.specs.Coded.{coded_list};
    ghost use Rattle.wh_grammar.specs.Token as machine;
    ghost use Rattle.wh_grammar.specs.Spelled.{tokens_of};

    ghost Value = { List machine.Token };

    ghost coded = { coded_list machine.coded_token };

    ghost view = { λ w. tokens_of w.rest.now };
}

impl<'a> Words<'a> {
    /// All the tokens of a text.
    pub fn new(tokens: &'a [Token]) -> Words<'a>
        ensures { result ≡ tokens_of tokens.now }
    {
        Words { rest: tokens }
    }

    /// The tokens that are left, with their places.
    pub fn rest(&self) -> &'a [Token]
        ensures { tokens_of result.now ≡ self.now }
    {
        self.rest
    }

    /// What the next token is for an expression.
    pub fn key(&self) -> TokenClass
        ensures { result ≡ key_of self.now }
    {
        key_at(self.rest)
    }

    /// What the token behind the next one is.
    #[tactic(auto, unfolding(crate::specs::Keys::key_of))]
    pub fn key_behind(&self) -> TokenClass
        ensures { result ≡ key_of (tail self.now) }
    {
        match self.rest {
            [] => TokenClass::End,
            [_, behind @ ..] => key_at(behind),
        }
    }

    /// Whether a sign, or a word of expressions, stands behind the next token.
    #[tactic(auto, unfolding(crate::specs::Steps::sees))]
    pub fn sees_behind(&self, key: TokenClass) -> bool
        ensures { result ≡ sees key (tail self.now) }
    {
        same_key(self.key_behind(), key)
    }

    /// How tightly the next token binds behind an expression: 0 where it doesn't go on with it.
    #[tactic(auto, using(crate::proofs::KeyLemmas::binds_key))]
    pub fn binds(&self) -> u8
        ensures { result ≡ binds self.now }
    {
        binds(self.key())
    }

    /// Leaves out the next token.
    pub fn skip(&mut self)
        ensures { self.new ≡ tail self.old }
    {
        if let [_, behind @ ..] = self.rest {
            self.rest = behind;
        }
    }

    /// Takes a name: a word that isn't reserved, or a quoted one.
    pub fn name(&mut self, alloc: Global) -> Result<Text, ParseFault>
        ensures reads { Reads (spec.read_name self.old) result self.new }
        ensures kept { OnErr result (self.new ≡ self.old) }
    {
        let name = name_at(alloc, self.rest)?;
        self.skip();
        Ok(name)
    }
}

#[tactic(auto, unfolding(crate::specs::Keys::key_of))]
fn key_at(tokens: &[Token]) -> TokenClass
    ensures { result ≡ key_of (tokens_of tokens.now) }
{
    match tokens {
        [] => TokenClass::End,
        [first, ..] => kind_key(first.kind()),
    }
}

fn opens(tokens: &[Token]) -> bool
    ensures { result ≡ machine_name.opens (tokens_of tokens.now) }
{
    match tokens {
        [] => false,
        [first, ..] => is_open(first.kind()),
    }
}

fn is_open(kind: &Kind) -> bool
    ensures { result ≡ machine_name.opens (token_of kind.now ∷ []) }
{
    match kind {
        Kind::Sign(Sign::LParen) => true,
        _ => false,
    }
}

/// Whether a word is a name before these tokens.
fn is_name(word: &Text, behind: &[Token]) -> bool
    ensures { result ≡ spec.is_name word.now (tokens_of behind.now) }
{
    !is_reserved(word) && !(is_call(word) && opens(behind))
}

#[tactic(auto, unfolding(crate::specs::Steps::read_name))]
fn name_at(alloc: Global, tokens: &[Token]) -> Result<Text, ParseFault>
    ensures { Reads (spec.read_name (tokens_of tokens.now)) result (tail (tokens_of tokens.now)) }
{
    match tokens {
        [] => Err(ParseFault::SyntaxError),
        [first, behind @ ..] => name_of(alloc, first.kind(), behind),
    }
}

#[tactic(auto, unfolding(crate::specs::Steps::read_name))]
fn name_of(alloc: Global, kind: &Kind, behind: &[Token]) -> Result<Text, ParseFault>
    ensures { Reads (spec.read_name (token_of kind.now ∷ tokens_of behind.now)) result
        (tokens_of behind.now) }
{
    match kind {
        Kind::Word(word) => {
            if is_name(word, behind) {
                Ok(word.copy(alloc)?)
            } else {
                Err(ParseFault::SyntaxError)
            }
        }
        Kind::Quoted(name) => Ok(name.copy(alloc)?),
        _ => Err(ParseFault::SyntaxError),
    }
}
