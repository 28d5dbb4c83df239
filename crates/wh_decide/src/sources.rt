//! What a statement reads: where the rows of its sources stand, as its session sees them.
ghost use Rattle.std.specs.Prelude.{◌≡◌, ◌∷◌, [], map, is_some, IfOk};
ghost use Rattle.std.specs.List.{list_all};
ghost use Rattle.wh_exec.specs.Source.{filed_in, instance_in};
ghost use Rattle.wh_fetch.specs.Device.{Counts};
ghost use Rattle.wh_fetch.specs.DiskFetch.{told_of, faults_of, damage_of, IsRight, GoesOn};
ghost use Rattle.wh_filed.specs.Filed.{AreAmong};
ghost use Rattle.wh_catalog.specs.Catalog.{stored_of, filed_of};
ghost use Rattle.wh_state.specs.Objects.{stream_at};
ghost use Rattle.wh_machine.specs.Reading as machine;
ghost use Rattle.wh_decide.specs.Sight.{machine_in, IsShown};
ghost use Rattle.wh_decide.specs.Sources.{bag_seen, bags_seen, filed_by, filed_seen, is_stream};
ghost use Rattle.wh_decide.specs.Asked.{AsksForMoved};

use crate::sight::Sight;
use std::alloc::{AllocError, Global};
use wh_exec::{Parts, Source};
use wh_fetch::{DiskFetch, FetchFault};
use wh_stream::show;
use wh_txn::TableAt;
use wh_value::Row;
use wh_world::Disk;

/// A source as a statement sees it.
#[derive(Debug, Drop)]
pub(crate) enum SourceSeen<'a> {
    Table(TableAt<'a>),
    /// The rows that a stream shows.
    Stream(Vec<Row>),
}

// What the session sees of the sources of these ids, each as often as it stands.
#[tactic(auto, using(wh_fetch::specs::DiskFetch::goes_on, wh_fetch::specs::DiskFetch::goes_none))]
pub(crate) fn sources_seen<'a, D: Disk>(
    alloc: Global,
    sight: &Sight<'a>,
    ids: &[u32],
    fetch: &mut DiskFetch<D>,
) -> Result<Vec<SourceSeen<'a>>, FetchFault>
    requires { IsRight D.Disk fetch.old }
    ensures seen { IsShown (told_of D.Disk fetch.old) sight.now → IfOk result (λ seen.
        bags_seen seen.items
        ≡ machine.instance_read (machine_in sight.now) sight.now.session ids.now) }
    ensures among { IfOk result (λ seen.
        AreAmong (filed_seen seen.items) (filed_of sight.now.catalog.now)) }
    ensures streams { IfOk result (λ seen. map is_stream seen.items
        ≡ map (λ id. is_some (stream_at (stored_of sight.now.catalog.now).objects id)) ids.now) }
    ensures asks { AsksForMoved sight.now.catalog.now
        (machine.start_in (machine_in sight.now) sight.now.session) ids.now
        fetch.old.asked.items fetch.new.asked.items }
    ensures sound { IsShown (told_of D.Disk fetch.old) sight.now
        → damage_of fetch.new ≡ damage_of fetch.old }
    ensures same { told_of D.Disk fetch.new ≡ told_of D.Disk fetch.old }
    ensures goes { GoesOn D.Disk fetch.old fetch.new }
    ensures counts { Counts (faults_of D.Disk fetch.old) (faults_of D.Disk fetch.new) result }
{
    let mut seen = Vec::new(alloc);
    for id in ids {
        let source = source_seen(alloc, sight, *id, fetch)?;
        seen.push(source)?;
    }
    Ok(seen)
}

#[tactic(auto, using(wh_fetch::specs::DiskFetch::goes_on, wh_fetch::specs::DiskFetch::goes_none))]
fn source_seen<'a, D: Disk>(
    alloc: Global,
    sight: &Sight<'a>,
    id: u32,
    fetch: &mut DiskFetch<D>,
) -> Result<SourceSeen<'a>, FetchFault>
    requires { IsRight D.Disk fetch.old }
    ensures seen { IsShown (told_of D.Disk fetch.old) sight.now → IfOk result (λ seen.
        bag_seen seen ≡ machine.rows_read (machine_in sight.now) sight.now.session id) }
    ensures among { IfOk result (λ seen.
        AreAmong (filed_by seen) (filed_of sight.now.catalog.now)) }
    ensures stream { IfOk result (λ seen. is_stream seen
        ≡ is_some (stream_at (stored_of sight.now.catalog.now).objects id)) }
    ensures asks { AsksForMoved sight.now.catalog.now
        (machine.start_in (machine_in sight.now) sight.now.session) (id ∷ [])
        fetch.old.asked.items fetch.new.asked.items }
    ensures sound { IsShown (told_of D.Disk fetch.old) sight.now
        → damage_of fetch.new ≡ damage_of fetch.old }
    ensures same { told_of D.Disk fetch.new ≡ told_of D.Disk fetch.old }
    ensures goes { GoesOn D.Disk fetch.old fetch.new }
    ensures counts { Counts (faults_of D.Disk fetch.old) (faults_of D.Disk fetch.new) result }
{
    if let Some(stream) = sight.catalog.stream(id) {
        let rows = show(alloc, sight.catalog, stream, sight.start(), fetch)?;
        return Ok(SourceSeen::Stream(rows));
    }
    let table = sight
        .sessions
        .at(alloc, sight.catalog, sight.session, id, fetch)?;
    Ok(SourceSeen::Table(table))
}

// Where the rows of each of them stand.
pub(crate) fn sources_of<'a>(
    alloc: Global,
    seen: &'a [SourceSeen<'_>],
) -> Result<Vec<Source<'a>>, AllocError>
    ensures rows { IfOk result (λ sources. instance_in sources.items ≡ bags_seen seen.now) }
    ensures filed { IfOk result (λ sources. filed_in sources.items ≡ filed_seen seen.now) }
{
    let mut sources = Vec::new(alloc);
    for source in seen {
        sources.push(source.place())?;
    }
    Ok(sources)
}

// Whether all of them are streams, whose rows are at hand.
pub(crate) fn are_streams(seen: &[SourceSeen<'_>]) -> bool
    ensures { result ≡ list_all is_stream seen.now }
{
    seen.iter().all(|source| source.is_stream())
}

impl SourceSeen<'_> {
    ghost use Rattle.std.specs.Prelude.{◌≡◌};
    ghost use Rattle.wh_exec.specs.Source as source;
    ghost use Rattle.wh_decide.specs.Sources.{bag_seen, filed_by, is_stream};

    fn is_stream(&self) -> bool
        ensures { result ≡ is_stream self.now }
    {
        match self {
            SourceSeen::Table(_) => false,
            SourceSeen::Stream(_) => true,
        }
    }

    /// Where its rows stand.
    fn place(&self) -> Source<'_>
        ensures rows { source.bag_in result ≡ bag_seen self.now }
        ensures filed { source.filed_of result ≡ filed_by self.now }
    {
        match self {
            SourceSeen::Table(table) => Source::Parts(Parts {
                filed: &table.filed,
                made: &table.made,
            }),
            SourceSeen::Stream(rows) => Source::Rows(rows),
        }
    }
}
