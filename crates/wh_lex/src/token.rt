use crate::Sign;
use std::marker::Model;
use wh_value::Text;

/// What a token is.
#[derive(Debug, Drop)]
pub enum Kind {
    /// A word in upper case.
    Word(Text),
    /// A quoted name, without its quotes.
    Quoted(Text),
    /// A text, without its quotes.
    Text(Text),
    /// A number of at most 18 digits.
    Number(u64),
    Sign(Sign),
}

/// A token and where it stands: how many bytes of the text are left where it begins, and how many
/// where it ends. Contracts see the definition's `Placed`.
#[derive(Debug, Drop)]
pub struct Token {
    kind: Kind,
    from: u64,
    behind: u64,
}

impl Model for Token {
    ghost use Rattle.wh_grammar.specs.Token.{Placed, coded_placed};
    ghost use Rattle.wh_lex.specs.View.{token_of, placed_of, IsWithin};

    ghost Value = { Placed };

    ghost coded = { coded_placed };

    ghost view = { λ t. placed_of t.kind t.from t.behind };

    ghost invariant = { λ t. IsWithin (token_of t.kind) };
}

impl Token {
    ghost use Rattle.std.specs.Prelude.{◌≡◌};
    ghost use Rattle.wh_lex.specs.View.{token_of, placed_of, IsWithin};

    /// A token that begins where `from` bytes of the text are left, and ends where `behind` are.
    pub(crate) fn new(kind: Kind, from: u64, behind: u64) -> Token
        requires { IsWithin (token_of kind) }
        ensures { result ≡ placed_of kind from behind }
    {
        Token { kind, from, behind }
    }

    /// What the token is. A number is below 10^18.
    pub fn kind(&self) -> &Kind
        ensures is { token_of result.now ≡ self.now.token }
        ensures within { IsWithin (token_of result.now) }
    {
        &self.kind
    }

    /// How many bytes of the text are left where the token begins.
    pub fn from(&self) -> u64
        ensures { result ≡ self.now.from }
    {
        self.from
    }

    /// How many bytes of the text are left where the token ends.
    pub fn behind(&self) -> u64
        ensures { result ≡ self.now.behind }
    {
        self.behind
    }
}
