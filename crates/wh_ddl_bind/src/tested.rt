ghost use Rattle.wh_expr_bind.specs.View.{findings_of};
ghost use Rattle.wh_ddl_naming.specs.Meant.{first_failing_of};
ghost use Rattle.wh_ddl_bind.specs.Binds.{Answers};

use wh_bind::BindFault;
use wh_expr_bind::Findings;
use wh_naming::Failing;
use wh_value::Text;

/// The first failing test, if one fails, of a statement that makes an object of a taken name, or
/// none.
pub(crate) fn tested(taken_object: Option<Text>, findings: Findings) -> Result<(), BindFault>
    ensures { Answers result (first_failing_of taken_object (findings_of findings)) }
{
    match taken_object {
        None => passed(findings.first_failing()),
        Some(created) => taken_behind(findings.unknown_object, created),
    }
}

ghost use Rattle.std.specs.Prelude.{option_map};
ghost use Rattle.wh_naming.specs.View.{failing_of};

fn passed(failing: Option<Failing>) -> Result<(), BindFault>
    ensures { Answers result (option_map failing_of failing) }
{
    match failing {
        Some(failing) => Err(BindFault::Failing(failing)),
        None => Ok(()),
    }
}

ghost use Rattle.std.specs.Prelude.{Some};
ghost use Rattle.wh_naming.specs.Findings as naming;

// An unknown object is found before the taken name of a new one.
fn taken_behind(unknown_object: Option<Text>, created: Text) -> Result<(), BindFault>
    ensures { Answers result (naming.either (option_map naming.UnknownName unknown_object)
        (Some (naming.NameTaken created))) }
{
    match unknown_object {
        Some(name) => Err(BindFault::Failing(Failing::UnknownName(name))),
        None => Err(BindFault::Failing(Failing::NameTaken(created))),
    }
}
