//! Commits whose rows are let go.
ghost use Rattle.std.specs.Prelude.{◌≡◌, map, IfOk};
ghost use Rattle.std.specs.List.{AllByRecursion};
ghost use Rattle.wh_part.specs.Meta.{IsEven};
ghost use Rattle.wh_state.specs.Spelling.{IsVersionChange, IsChange};
ghost use Rattle.wh_record.specs.View.{version_change_of, change_of, written_of};

use crate::{
    Change, ChangeIn, Commit, CommitIn, OutlinedChange, OutlinedCommit, OutlinedVersion,
    VersionChange, VersionChangeIn,
};
use std::alloc::{AllocError, Global};
use wh_part::{Outline, Partition};

fn outlines_of(alloc: Global, partitions: &[Partition]) -> Result<Vec<Outline>, AllocError>
    requires { AllByRecursion (λ p. IsEven p.rows) partitions.now }
    ensures { IfOk result (λ outlines. outlines.items ≡ partitions.now) }
{
    let mut outlines = Vec::with_capacity(alloc, partitions.len())?;
    for partition in partitions {
        outlines.push(Outline::of(alloc, partition)?)?;
    }
    Ok(outlines)
}

fn outlined_version(alloc: Global, version: VersionChange) -> Result<OutlinedVersion, AllocError>
    requires { IsVersionChange (version_change_of version) }
    ensures { IfOk result (λ made. version_change_of made ≡ version_change_of version) }
{
    let VersionChangeIn {
        id,
        data_timestamp,
        next_row,
        width,
        removed,
        added,
    } = version;
    let added = outlines_of(alloc, &added)?;
    Ok(VersionChangeIn {
        id,
        data_timestamp,
        next_row,
        width,
        removed,
        added,
    })
}

fn outlined_change(alloc: Global, change: Change) -> Result<OutlinedChange, AllocError>
    requires { IsChange (written_of change) }
    ensures { IfOk result (λ made. change_of made ≡ change_of change) }
{
    match change {
        ChangeIn::CreatesTable(table) => Ok(ChangeIn::CreatesTable(table)),
        ChangeIn::Drops(id) => Ok(ChangeIn::Drops(id)),
        ChangeIn::PushesVersion(version) => {
            Ok(ChangeIn::PushesVersion(outlined_version(alloc, version)?))
        }
        ChangeIn::CreatesStream(stream) => Ok(ChangeIn::CreatesStream(stream)),
        ChangeIn::SetsOffset { id, offset } => Ok(ChangeIn::SetsOffset { id, offset }),
        ChangeIn::CreatesTask(task) => Ok(ChangeIn::CreatesTask(task)),
        ChangeIn::SetsTask { id, state } => Ok(ChangeIn::SetsTask { id, state }),
        ChangeIn::StartsRun { root, tasks } => Ok(ChangeIn::StartsRun { root, tasks }),
        ChangeIn::FinishesTask { root, task, ending } => {
            Ok(ChangeIn::FinishesTask { root, task, ending })
        }
        ChangeIn::CreatesDynamic(table) => Ok(ChangeIn::CreatesDynamic(table)),
        ChangeIn::SetsDynamic { id, state } => Ok(ChangeIn::SetsDynamic { id, state }),
        ChangeIn::SetsGroups { id, groups } => Ok(ChangeIn::SetsGroups { id, groups }),
    }
}

fn outlined_changes(alloc: Global, changes: Vec<Change>) -> Result<Vec<OutlinedChange>, AllocError>
    requires { AllByRecursion IsChange (map written_of changes.items) }
    ensures { IfOk result (λ made. map change_of made.items ≡ map change_of changes.items) }
{
    let mut made = Vec::with_capacity(alloc, changes.len())?;
    for change in changes {
        let outlined = outlined_change(alloc, change)?;
        made.push(outlined)?;
    }
    Ok(made)
}

impl Commit {
    ghost use Rattle.std.specs.Prelude.{◌≡◌, IfOk};
    ghost use Rattle.wh_state.specs.Commit.{as_text};
    ghost use Rattle.wh_state.specs.Spelling.{IsTextCommit};
    ghost use Rattle.wh_record.specs.View.{commit_of};

    /// The commit without the rows that it adds, which are let go. It may be written, as `encode`
    /// says.
    pub fn outlined(self, alloc: Global) -> Result<OutlinedCommit, AllocError>
        requires { IsTextCommit (as_text (commit_of self)) }
        ensures { IfOk result (λ outlined. commit_of outlined ≡ commit_of self) }
    {
        let CommitIn { stamp, changes } = self;
        let changes = outlined_changes(alloc, changes)?;
        Ok(CommitIn { stamp, changes })
    }
}
