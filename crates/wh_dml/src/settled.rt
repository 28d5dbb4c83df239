use crate::turn::Turn;
use crate::{Effect, EffectFault};
use std::alloc::{AllocError, Global};
use wh_part::NumberedRow;
use wh_value::Row;

/// What the target's rows come to so far.
#[derive(Debug, Drop)]
pub(crate) struct Settled {
    /// The first row of which several source rows select a change.
    ambiguous: Option<Row>,
    effect: Effect,
}

impl Settled {
    ghost use Rattle.std.specs.Prelude.{◌≡◌, Some, OnOk};
    ghost use Rattle.wh_dml.specs.Steps.{after, nothing, outcome, settled_by};
    ghost use Rattle.wh_dml.specs.View.{settled_of, turns_of, Gives};
    ghost use Rattle.wh_part.specs.View.{numbered_of};

    pub(crate) fn new(alloc: Global) -> Settled
        ensures { settled_of result ≡ nothing }
    {
        Settled {
            ambiguous: None,
            effect: Effect::new(alloc),
        }
    }

    /// Adds the turns of the next row.
    pub(crate) fn put(
        &mut self,
        alloc: Global,
        entry: &NumberedRow,
        turns: Vec<Turn>,
    ) -> Result<(), AllocError>
        ensures { OnOk result (settled_of self.new
            ≡ after (settled_of self.old)
            (settled_by (numbered_of entry.now) (turns_of turns.items))) }
    {
        let mut turns = turns;
        if turns.len() > 1 {
            return self.put_several(alloc, &entry.row);
        }
        if let Some(turn) = turns.pop() {
            self.effect.put(entry.number, turn)?;
        }
        Ok(())
    }

    fn put_several(&mut self, alloc: Global, row: &Row) -> Result<(), AllocError>
        ensures { OnOk result (settled_of self.new
            ≡ after (settled_of self.old) (record nothing { ambiguous = Some row.now })) }
    {
        if self.ambiguous.is_none() {
            self.ambiguous = Some(row.copy(alloc)?);
        }
        Ok(())
    }

    /// Adds what the rows behind these come to.
    pub(crate) fn append(&mut self, other: Settled) -> Result<(), AllocError>
        ensures { OnOk result
            (settled_of self.new ≡ after (settled_of self.old) (settled_of other)) }
    {
        let Settled { ambiguous, effect } = other;
        if self.ambiguous.is_none() {
            self.ambiguous = ambiguous;
        }
        self.effect.append(effect)
    }

    /// The effect with the rows that are added.
    pub(crate) fn adding(self, added: Vec<Row>) -> Result<Effect, EffectFault>
        ensures { Gives result (outcome (settled_of self) added.items) }
    {
        let Settled { ambiguous, effect } = self;
        match ambiguous {
            Some(row) => Err(EffectFault::AmbiguousMerge(row)),
            None => {
                let Effect {
                    removed,
                    changed,
                    added: _,
                } = effect;
                Ok(Effect {
                    removed,
                    changed,
                    added,
                })
            }
        }
    }
}
