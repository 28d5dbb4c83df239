ghost use Rattle.std.specs.Prelude.{◌≡◌, option_map};
ghost use Rattle.wh_lex.specs.Front.{single, double};
ghost use Rattle.wh_lex.specs.View.{sign_of};

/// A sign. Contracts see it as the definition's by `sign_of`.
#[derive(Clone, Copy, Debug, PartialEq, Eq)]
pub enum Sign {
    LParen,
    RParen,
    Comma,
    Dot,
    Star,
    Plus,
    Minus,
    Equal,
    Unequal,
    Less,
    AtMost,
    Greater,
    AtLeast,
    Arrow,
}

impl Sign {
    /// The sign that one byte is.
    pub(crate) fn of_one(byte: u8) -> Option<Sign>
        ensures { option_map sign_of result ≡ single byte }
    {
        match byte {
            b'(' => Some(Sign::LParen),
            b')' => Some(Sign::RParen),
            b',' => Some(Sign::Comma),
            b'.' => Some(Sign::Dot),
            b'*' => Some(Sign::Star),
            b'+' => Some(Sign::Plus),
            b'-' => Some(Sign::Minus),
            b'=' => Some(Sign::Equal),
            b'<' => Some(Sign::Less),
            b'>' => Some(Sign::Greater),
            _ => None,
        }
    }

    /// The sign that two bytes are.
    pub(crate) fn of_two(first: u8, second: u8) -> Option<Sign>
        ensures { option_map sign_of result ≡ double first second }
    {
        match (first, second) {
            (b'<', b'=') => Some(Sign::AtMost),
            (b'<', b'>') => Some(Sign::Unequal),
            (b'>', b'=') => Some(Sign::AtLeast),
            (b'=', b'>') => Some(Sign::Arrow),
            (b'!', b'=') => Some(Sign::Unequal),
            _ => None,
        }
    }
}
