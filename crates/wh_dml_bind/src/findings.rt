//! What is found wrong in parts of a statement. Mostly nothing is, and then nothing moves.
ghost use Rattle.std.specs.Prelude.{◌≡◌, true, not};
ghost use Rattle.wh_naming.specs.Findings as wrong;
ghost use Rattle.wh_expr_bind.specs.View.{findings_of};

use std::mem;
use wh_expr_bind::Findings;

/// Adds what is found in the next part.
#[tactic(auto, using(wh_core_bind::proofs::FindingLaws::followed_nothing))]
pub(crate) fn add_findings(findings: &mut Findings, next: Findings)
    ensures { findings_of findings.new
        ≡ wrong.followed (findings_of findings.old) (findings_of next) }
{
    if !is_nothing(&next) {
        let found = mem::replace(findings, Findings::nothing());
        *findings = found.followed(next);
    }
}

/// What is found, and then whether the part fits.
#[tactic(auto, using(wh_core_bind::proofs::FindingLaws::followed_nothing))]
pub(crate) fn mistyped_unless(fits: bool, findings: Findings) -> Findings
    ensures { findings_of result
        ≡ wrong.followed (findings_of findings) (wrong.mistyped_if (not fits)) }
{
    if fits {
        findings
    } else {
        findings.followed(Findings::mistyped_if(true))
    }
}

fn is_nothing(findings: &Findings) -> bool
    ensures { result ≡ true → findings_of findings.now ≡ wrong.nothing_found }
{
    findings.unknown_object.is_none()
        && findings.wrong_kind.is_none()
        && findings.unknown_column.is_none()
        && findings.taken.is_none()
        && !findings.is_mistyped
}
