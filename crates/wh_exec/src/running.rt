ghost use Rattle.std.specs.Prelude.{◌≡◌, IfOk, OnOk};
ghost use Rattle.wh_fetch.specs.Device.{Counts};
ghost use Rattle.wh_filed.specs.Fetching.{AllShownBy, AllCovered};
ghost use Rattle.wh_filed.specs.Asking.{AsksAmong};
ghost use Rattle.wh_meaning.specs.Query.{eval};
ghost use Rattle.wh_algebra.specs.Plan.{plan_of};
ghost use Rattle.wh_exec.specs.Source.{instance_in, filed_in, bag_found};
ghost use Rattle.wh_exec.specs.Asked.{filed_by, asked_for};

use crate::Source;
use crate::feeding::gather;
use crate::sink::Sink;
use std::thread::Threads;
use wh_algebra::{Physical, Tuple};
use wh_fetch::{Fetch, FetchFault};
use wh_workers::Workers;

/// The rows of a plan over its sources, whose partitions are read one after the other; None where
/// they are undefined. Several workers go over the rows of up to 256 partitions at once. A partition
/// on whose rows the condition above its scan is TRUE nowhere is passed over. A source that isn't
/// there has no rows.
pub fn run<'a, R: Threads + Sync, F: Fetch>(
    workers: &Workers<'_, R>,
    plan: &Physical,
    sources: &[Source<'_>],
    fetch: &mut F,
) -> Result<Option<Vec<Tuple<'a>>>, FetchFault>
    requires { AllCovered (F.covers fetch.old) (filed_in sources.now) }
    ensures rows { AllShownBy (F.contents fetch.old) (filed_in sources.now)
        → IfOk result (λ found. bag_found found
        ≡ eval (plan_of plan.now) (instance_in sources.now)) }
    ensures sound { AllShownBy (F.contents fetch.old) (filed_in sources.now)
        → F.damage fetch.new ≡ F.damage fetch.old }
    ensures asks { OnOk result (AsksAmong (asked_for (plan_of plan.now) (filed_by sources.now))
        (F.asked fetch.old) (F.asked fetch.new)) }
    ensures same { F.contents fetch.new ≡ F.contents fetch.old }
    ensures goes { F.stays fetch.old fetch.new }
    ensures counts { Counts (F.faults fetch.old) (F.faults fetch.new) result }
{
    let rows = Sink::Rows(Vec::new(workers.alloc));
    gather(workers, plan, sources, fetch, rows)
}
