use wh_value::Text;

/// The first failing test, each over the whole statement before the next one.
#[derive(Debug, Drop)]
pub enum Failing {
    UnknownName(Text),
    WrongKind(Text),
    NameTaken(Text),
    TypeMismatch,
}
