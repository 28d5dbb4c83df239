ghost use Rattle.std.specs.Prelude.{◌≡◌};
ghost use Rattle.wh_text.specs.Area as spec;

/// Where the next byte of a command stands, by the bytes before it.
#[derive(Clone, Copy, Debug, PartialEq, Eq)]
pub(crate) enum Area {
    Plain,
    /// Behind a minus sign, which may open a comment.
    Minus,
    /// Behind a slash, which may open a comment.
    Slash,
    /// Between quotes of that byte.
    Between(u8),
    LineComment,
    Comment,
    /// Behind a star in a comment, which may close it.
    Star,
}

impl Area {
    /// Where the byte behind that one stands.
    pub(crate) fn behind(self, byte: u8) -> Area
        ensures { result ≡ spec.behind self byte }
    {
        match (self, byte) {
            (Area::Minus, b'-') => Area::LineComment,
            (Area::Slash, b'*') => Area::Comment,
            (Area::Star, b'/') => Area::Plain,
            (Area::LineComment, b'\n') => Area::Plain,
            (Area::Plain | Area::Minus | Area::Slash, _) => Area::behind_plain(byte),
            (Area::Comment | Area::Star, _) => Area::behind_comment(byte),
            (Area::Between(quote), _) if byte == quote => Area::Plain,
            (Area::Between(_) | Area::LineComment, _) => self,
        }
    }

    fn behind_plain(byte: u8) -> Area
        ensures { result ≡ spec.behind_plain byte }
    {
        if byte == b'\'' || byte == b'"' {
            return Area::Between(byte);
        }
        if byte == b'-' {
            return Area::Minus;
        }
        if byte == b'/' {
            return Area::Slash;
        }
        Area::Plain
    }

    fn behind_comment(byte: u8) -> Area
        ensures { result ≡ spec.behind_comment byte }
    {
        if byte == b'*' {
            Area::Star
        } else {
            Area::Comment
        }
    }

    /// Whether the byte ends the command.
    pub(crate) fn ends(self, byte: u8) -> bool
        ensures { result ≡ spec.ends self byte }
    {
        match self {
            Area::Plain | Area::Minus | Area::Slash => byte == b';',
            Area::Between(_) | Area::LineComment | Area::Comment | Area::Star => false,
        }
    }
}

/// Whether a byte outside quotes and comments leaves the next one there, and ends nothing.
pub(crate) fn is_plain(byte: u8) -> bool
    ensures { result ≡ spec.is_plain byte }
{
    !matches!(byte, b'\'' | b'"' | b'-' | b'/' | b';')
}
