ghost use Rattle.std.specs.Prelude.{◌≡◌, ◌≤◌, bytes_eq};
ghost use Rattle.wh_lex.specs.View.{token_of, sign_of};
ghost use Rattle.wh_cursor.specs.Keys as spec;

use crate::reserved::{is_reserved, is_same};
use wh_lex::{Kind, Sign};
use wh_value::Text;

/// What a token is for an expression, where its bytes don't matter.
#[derive(Clone, Copy, Debug, PartialEq, Eq)]
pub enum TokenClass {
    /// No token.
    End,
    Or,
    And,
    Not,
    Is,
    In,
    Between,
    Null,
    True,
    False,
    /// Any other reserved word.
    Reserved,
    Sum,
    Count,
    /// A quoted name, or any other word.
    Name,
    Text,
    Number,
    LParen,
    RParen,
    Comma,
    Dot,
    Star,
    Plus,
    Minus,
    Equal,
    Unequal,
    Less,
    AtMost,
    Greater,
    AtLeast,
    Arrow,
}

/// Whether they are the same.
#[tactic(auto, unfolding(crate::specs::Keys::same_key))]
pub fn same_key(a: TokenClass, b: TokenClass) -> bool
    ensures { result ≡ spec.same_key a b }
{
    a == b
}

/// How tightly it binds behind an expression: 0 where it doesn't go on with it.
pub fn binds(key: TokenClass) -> u8
    ensures { result ≡ spec.key_binds key }
{
    match key {
        TokenClass::Or => 1,
        TokenClass::And => 2,
        TokenClass::Not | TokenClass::Is | TokenClass::In | TokenClass::Between => 3,
        TokenClass::Equal
        | TokenClass::Unequal
        | TokenClass::Less
        | TokenClass::AtMost
        | TokenClass::Greater
        | TokenClass::AtLeast => 3,
        TokenClass::Plus | TokenClass::Minus => 4,
        TokenClass::Star => 5,
        TokenClass::LParen | TokenClass::Dot => 6,
        _ => 0,
    }
}

fn reserved_key(word: &Text) -> TokenClass
    ensures { result ≡ spec.reserved_key word.now }
{
    if is_same(word, b"OR") {
        return TokenClass::Or;
    }
    if is_same(word, b"AND") {
        return TokenClass::And;
    }
    if is_same(word, b"NOT") {
        return TokenClass::Not;
    }
    if is_same(word, b"IS") {
        return TokenClass::Is;
    }
    if is_same(word, b"IN") {
        return TokenClass::In;
    }
    if is_same(word, b"BETWEEN") {
        return TokenClass::Between;
    }
    constant_key(word)
}

fn constant_key(word: &Text) -> TokenClass
    ensures { result ≡ spec.constant_key word.now }
{
    if is_same(word, b"NULL") {
        return TokenClass::Null;
    }
    if is_same(word, b"TRUE") {
        return TokenClass::True;
    }
    if is_same(word, b"FALSE") {
        return TokenClass::False;
    }
    TokenClass::Reserved
}

fn word_key(word: &Text) -> TokenClass
    ensures { result ≡ spec.word_key word.now }
{
    if is_reserved(word) {
        return reserved_key(word);
    }
    if is_same(word, b"SUM") {
        return TokenClass::Sum;
    }
    if is_same(word, b"COUNT") {
        return TokenClass::Count;
    }
    TokenClass::Name
}

fn sign_key(sign: Sign) -> TokenClass
    ensures { result ≡ spec.sign_key (sign_of sign) }
{
    match sign {
        Sign::LParen => TokenClass::LParen,
        Sign::RParen => TokenClass::RParen,
        Sign::Comma => TokenClass::Comma,
        Sign::Dot => TokenClass::Dot,
        Sign::Star => TokenClass::Star,
        Sign::Plus => TokenClass::Plus,
        Sign::Minus => TokenClass::Minus,
        Sign::Equal => TokenClass::Equal,
        Sign::Unequal => TokenClass::Unequal,
        Sign::Less => TokenClass::Less,
        Sign::AtMost => TokenClass::AtMost,
        Sign::Greater => TokenClass::Greater,
        Sign::AtLeast => TokenClass::AtLeast,
        Sign::Arrow => TokenClass::Arrow,
    }
}

pub fn kind_key(kind: &Kind) -> TokenClass
    ensures { result ≡ spec.token_key (token_of kind.now) }
{
    match kind {
        Kind::Word(word) => word_key(word),
        Kind::Quoted(_) => TokenClass::Name,
        Kind::Text(_) => TokenClass::Text,
        Kind::Number(_) => TokenClass::Number,
        Kind::Sign(sign) => sign_key(*sign),
    }
}
