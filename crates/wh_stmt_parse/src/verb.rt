//! What the first words of a statement begin.

ghost use Rattle.std.specs.Prelude.{◌≡◌};
ghost use Rattle.wh_stmt_parse.specs.Read.{verb_of, object_of};

use wh_cursor::Words;

/// The first word of a statement. `Change` is any other than these.
#[derive(Clone, Copy)]
pub enum Verb {
    Select,
    Create,
    Alter,
    Execute,
    Drop,
    Begin,
    Start,
    Commit,
    Rollback,
    Change,
}

/// What stands behind CREATE. `Replacement` is OR.
#[derive(Clone, Copy)]
pub enum Object {
    Table,
    Replacement,
    Stream,
    Task,
    DynamicTable,
    Nothing,
}

#[tactic(auto, unfolding(crate::specs::Read::verb_of))]
pub fn first_verb(words: &Words<'_>) -> Verb
    ensures { result ≡ verb_of words.now }
{
    if words.sees_word(b"SELECT") {
        return Verb::Select;
    }
    if words.sees_word(b"CREATE") {
        return Verb::Create;
    }
    if words.sees_word(b"ALTER") {
        return Verb::Alter;
    }
    if words.sees_word(b"EXECUTE") {
        return Verb::Execute;
    }
    if words.sees_word(b"DROP") {
        return Verb::Drop;
    }
    if words.sees_word(b"BEGIN") {
        return Verb::Begin;
    }
    if words.sees_word(b"START") {
        return Verb::Start;
    }
    if words.sees_word(b"COMMIT") {
        return Verb::Commit;
    }
    if words.sees_word(b"ROLLBACK") {
        return Verb::Rollback;
    }
    Verb::Change
}

#[tactic(auto, unfolding(crate::specs::Read::object_of))]
pub fn created_object(words: &Words<'_>) -> Object
    ensures { result ≡ object_of words.now }
{
    if words.sees_word(b"TABLE") {
        return Object::Table;
    }
    if words.sees_word(b"OR") {
        return Object::Replacement;
    }
    if words.sees_word(b"STREAM") {
        return Object::Stream;
    }
    if words.sees_word(b"TASK") {
        return Object::Task;
    }
    if words.sees_word(b"DYNAMIC") {
        return Object::DynamicTable;
    }
    Object::Nothing
}
