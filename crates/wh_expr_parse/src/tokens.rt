ghost use Rattle.std.specs.Prelude.{◌≡◌, true, false, if◌then◌else◌};
ghost use Rattle.wh_cursor.specs.Gives.{Reads};
ghost use Rattle.wh_cursor.specs.Keys.{key_of};
ghost use Rattle.wh_cursor.specs.Steps.{read_name, sees, tail};
ghost use Rattle.wh_expr_parse.specs.Read.{read_literal};
ghost use Rattle.wh_expr_parse.specs.State as spec;
ghost use Rattle.wh_expr_parse.specs.State.{at};

use crate::literal::literal_at;
use sqlite_items::Boxed;
use std::alloc::Global;
use std::marker::Model;
use wh_ast::Expr;
use wh_cursor::{ParseFault, TokenClass, Words};
use wh_value::Text;

/// The tokens that are left, and how many operators and IN items the expression may still have.
#[derive(Drop)]
pub struct Tokens<'a> {
    words: Words<'a>,
    room: usize,
}

impl<'a> Model for Tokens<'a> {
    ghost use Rattle.wh_expr_parse.specs.State.{State, coded_state, at};

    ghost Value = { State };

    ghost coded = { coded_state };

    ghost view = { λ t. at t.words t.room };
}

impl<'a> Tokens<'a> {
    pub fn new(words: Words<'a>, room: usize) -> Tokens<'a>
        ensures { result ≡ at words.entry room }
    {
        Tokens { words, room }
    }

    pub fn into_words(self) -> Words<'a>
        ensures { result ≡ self.entry.left }
    {
        let Tokens { words, .. } = self;
        words
    }

    pub fn key(&self) -> TokenClass
        ensures { result ≡ key_of self.now.left }
    {
        self.words.key()
    }

    pub fn room(&self) -> usize
        ensures { result ≡ self.now.room }
    {
        self.room
    }

    /// Leaves out the next token.
    pub fn skip(&mut self)
        ensures { self.new ≡ spec.next self.old }
    {
        self.words.skip();
    }

    pub fn sees(&self, key: TokenClass) -> bool
        ensures { result ≡ sees key self.now.left }
    {
        self.words.sees(key)
    }

    pub fn sees_behind(&self, key: TokenClass) -> bool
        ensures { result ≡ sees key (tail self.now.left) }
    {
        self.words.sees_behind(key)
    }

    pub fn eat(&mut self, key: TokenClass) -> bool
        ensures found { result ≡ sees key self.old.left }
        ensures after { self.new
            ≡ (if sees key self.old.left then spec.next self.old else self.old) }
    {
        let found = self.sees(key);
        if found {
            self.skip();
        }
        found
    }

    #[tactic(auto, unfolding(crate::specs::State::expect))]
    pub fn expect(&mut self, key: TokenClass) -> Result<(), ParseFault>
        ensures { Reads (spec.expect key self.old) result self.new }
    {
        if self.sees(key) {
            self.skip();
            Ok(())
        } else {
            Err(ParseFault::SyntaxError)
        }
    }

    /// Counts one operator or IN item.
    #[tactic(auto, unfolding(crate::specs::State::spend))]
    pub fn spend(&mut self) -> Result<(), ParseFault>
        ensures { Reads (spec.spend self.old) result self.new }
    {
        if self.room == 0 {
            return Err(ParseFault::SyntaxError);
        }
        self.room -= 1;
        Ok(())
    }

    pub fn name(&mut self, alloc: Global) -> Result<Text, ParseFault>
        ensures { Reads (spec.plainly read_name self.old) result self.new }
    {
        self.words.name(alloc)
    }

    pub fn literal(&mut self, alloc: Global) -> Result<Boxed<Expr>, ParseFault>
        ensures { Reads (spec.plainly read_literal self.old) result self.new }
    {
        let literal = Boxed::new(alloc, literal_at(alloc, self.words.rest())?)?;
        self.skip();
        Ok(literal)
    }
}
