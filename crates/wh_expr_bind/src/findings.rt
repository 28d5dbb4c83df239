ghost use Rattle.std.specs.Prelude.{◌≡◌, true, option_map};
ghost use Rattle.wh_naming.specs.Findings as naming;
ghost use Rattle.wh_naming.specs.View.{failing_of};
ghost use Rattle.wh_expr_bind.specs.View.{findings_of};

use wh_naming::Failing;
use wh_value::Text;

/// What is found wrong: for each test the first name in the text that fails it, and whether
/// anything is mistyped.
#[derive(Debug, Drop)]
pub struct Findings {
    pub unknown_object: Option<Text>,
    pub wrong_kind: Option<Text>,
    pub unknown_column: Option<Text>,
    pub taken: Option<Text>,
    pub is_mistyped: bool,
}

impl Findings {
    pub fn nothing() -> Findings
        ensures { findings_of result ≡ naming.nothing_found }
    {
        Findings {
            unknown_object: None,
            wrong_kind: None,
            unknown_column: None,
            taken: None,
            is_mistyped: false,
        }
    }

    /// What is found in a part of a text, and then in the next.
    pub fn followed(self, next: Findings) -> Findings
        ensures { findings_of result ≡ naming.followed (findings_of self) (findings_of next) }
    {
        Findings {
            unknown_object: either(self.unknown_object, next.unknown_object),
            wrong_kind: either(self.wrong_kind, next.wrong_kind),
            unknown_column: either(self.unknown_column, next.unknown_column),
            taken: either(self.taken, next.taken),
            is_mistyped: self.is_mistyped || next.is_mistyped,
        }
    }

    pub fn unknown_object(name: Text) -> Findings
        ensures { findings_of result ≡ naming.unknown_object name }
    {
        Findings {
            unknown_object: Some(name),
            ..Findings::nothing()
        }
    }

    pub fn wrong_kind(name: Text) -> Findings
        ensures { findings_of result ≡ naming.wrong_kind_if true name }
    {
        Findings {
            wrong_kind: Some(name),
            ..Findings::nothing()
        }
    }

    pub fn unknown_column(name: Text) -> Findings
        ensures { findings_of result ≡ naming.unknown_column name }
    {
        Findings {
            unknown_column: Some(name),
            ..Findings::nothing()
        }
    }

    pub fn taken(name: Text) -> Findings
        ensures { findings_of result ≡ naming.taken_if true name }
    {
        Findings {
            taken: Some(name),
            ..Findings::nothing()
        }
    }

    pub fn mistyped_if(is_mistyped: bool) -> Findings
        ensures { findings_of result ≡ naming.mistyped_if is_mistyped }
    {
        Findings {
            is_mistyped,
            ..Findings::nothing()
        }
    }

    /// The first failing test.
    #[tactic(auto, unfolding(wh_naming::specs::Findings::first_failing))]
    pub fn first_failing(self) -> Option<Failing>
        ensures { option_map failing_of result ≡ naming.first_failing (findings_of self) }
    {
        let Findings {
            unknown_object,
            wrong_kind,
            unknown_column,
            taken,
            is_mistyped,
        } = self;
        if let Some(name) = unknown_object {
            return Some(Failing::UnknownName(name));
        }
        if let Some(name) = wrong_kind {
            return Some(Failing::WrongKind(name));
        }
        if let Some(name) = unknown_column {
            return Some(Failing::UnknownName(name));
        }
        if let Some(name) = taken {
            return Some(Failing::NameTaken(name));
        }
        if is_mistyped {
            Some(Failing::TypeMismatch)
        } else {
            None
        }
    }
}

fn either(first: Option<Text>, next: Option<Text>) -> Option<Text>
    ensures { result ≡ naming.either first next }
{
    match first {
        Some(name) => Some(name),
        None => next,
    }
}
