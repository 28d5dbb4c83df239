//! What rows of the target come to in MERGE, and which source rows they met.
ghost use Rattle.std.specs.Prelude.{◌≡◌, IfOk, OnOk};
ghost use Rattle.wh_dml.specs.Steps.{either, met_none, with_met};
ghost use Rattle.wh_dml.specs.View.{met_of};

use crate::settled::Settled;
use std::alloc::{AllocError, Global};
use wh_value::Row;

/// What rows of the target come to, with a flag for each source row that one of them met.
#[derive(Debug, Drop)]
pub(crate) struct Met {
    pub(crate) found: Settled,
    pub(crate) flags: Vec<bool>,
}

impl Met {
    /// Of no rows.
    pub(crate) fn new(alloc: Global, source: &[Row]) -> Result<Met, AllocError>
        ensures { IfOk result (λ met. met_of met ≡ met_none source.now) }
    {
        Ok(Met {
            found: Settled::new(alloc),
            flags: no_flags(alloc, source)?,
        })
    }

    /// Adds what the rows behind these come to.
    pub(crate) fn append(&mut self, alloc: Global, other: Met) -> Result<(), AllocError>
        ensures { OnOk result (met_of self.new ≡ with_met (met_of self.old) (met_of other)) }
    {
        let Met { found, flags } = other;
        self.flags = flags_of_both(alloc, &self.flags, &flags)?;
        self.found.append(found)?;
        Ok(())
    }
}

ghost use Rattle.std.specs.Prelude.{false, map};

/// No source row is flagged.
pub(crate) fn no_flags(alloc: Global, source: &[Row]) -> Result<Vec<bool>, AllocError>
    ensures { IfOk result (λ flags. flags.items ≡ map (λ _. false) source.now) }
{
    let mut flags = Vec::with_capacity(alloc, source.len())?;
    for _row in source {
        flags.push(false)?;
    }
    Ok(flags)
}

// The source rows that are flagged by some or by others.
fn flags_of_both(alloc: Global, flags: &[bool], others: &[bool]) -> Result<Vec<bool>, AllocError>
    ensures { IfOk result (λ both. both.items ≡ either flags.now others.now) }
{
    let mut both = Vec::with_capacity(alloc, flags.len())?;
    for (place, flag) in flags.iter().enumerate() {
        if place >= others.len() {
            return Ok(both);
        }
        let other = others[place];
        both.push(*flag || other)?;
    }
    Ok(both)
}
