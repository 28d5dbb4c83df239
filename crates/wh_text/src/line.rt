use wh_value::Bytes;

/// A line of a script.
#[derive(Debug, Drop)]
pub enum Line {
    /// A command's text, of a longer one its first 65,537 bytes.
    Command(Bytes),
    /// The session of the commands behind it.
    Session(u64),
    /// A tick, with its reading if one is written.
    Tick(Option<u64>),
}
