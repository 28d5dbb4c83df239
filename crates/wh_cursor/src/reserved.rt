ghost use Rattle.std.specs.Prelude.{◌≡◌, ◌==◌, bytes_eq, filter, length, map};
ghost use Rattle.wh_grammar.specs.Words as word_class;

use wh_value::Text;

// The words that are no names, by how many letters they have.
const TWO: [&[u8]; 6] = [b"AS", b"BY", b"IN", b"IS", b"ON", b"OR"];

const THREE: [&[u8]; 4] = [b"ALL", b"AND", b"NOT", b"SET"];

const FOUR: [&[u8]; 9] = [
    b"FROM", b"FULL", b"INTO", b"JOIN", b"LEFT", b"NULL", b"THEN", b"TRUE", b"WHEN",
];

const FIVE: [&[u8]; 10] = [
    b"CROSS", b"FALSE", b"GROUP", b"INNER", b"MERGE", b"ORDER", b"RIGHT", b"UNION", b"USING",
    b"WHERE",
];

const SIX: [&[u8]; 6] = [
    b"DELETE", b"HAVING", b"INSERT", b"SELECT", b"UPDATE", b"VALUES",
];

const SEVEN: [&[u8]; 2] = [b"BETWEEN", b"NATURAL"];

const EIGHT: [&[u8]; 1] = [b"DISTINCT"];

pub fn is_same(word: &Text, letters: &[u8]) -> bool
    ensures { result ≡ bytes_eq word.now letters.now }
{
    word.as_bytes() == letters
}

fn contains(word: &[u8]) -> bool
    ensures { result ≡ word_class.is_reserved word.now }
{
    words_of(word.len()).contains(&word)
}

// Those of so many letters.
fn words_of(len: usize) -> &'static [&'static [u8]]
    ensures { map (λ word. word.now) result.now
        ≡ filter (λ word. length word == len) word_class.reserved_words }
{
    match len {
        2 => &TWO,
        3 => &THREE,
        4 => &FOUR,
        5 => &FIVE,
        6 => &SIX,
        7 => &SEVEN,
        8 => &EIGHT,
        _ => &[],
    }
}

/// Whether the word is no name.
pub fn is_reserved(word: &Text) -> bool
    ensures { result ≡ word_class.is_reserved word.now }
{
    contains(word.as_bytes())
}

/// Whether the word begins a call where a `(` stands behind it.
#[tactic(auto, unfolding(wh_grammar::specs::Words::is_call))]
pub fn is_call(word: &Text) -> bool
    ensures { result ≡ word_class.is_call word.now }
{
    is_same(word, b"SUM") || is_same(word, b"COUNT")
}
