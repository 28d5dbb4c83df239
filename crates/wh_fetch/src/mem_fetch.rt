ghost use Rattle.std.specs.Prelude.{◌≡◌, [], option_map, IfOk};
ghost use Rattle.std.specs.Option.{option_copied};
ghost use Rattle.std.specs.Arc.{arc_value};
ghost use Rattle.wh_fetch.specs.MemFetch.{held, held_in};

use crate::{Fetch, FetchFault};
use indexmap::IndexMap;
use std::alloc::{AllocError, Global};
use std::sync::Arc;
use wh_part::{PartId, PartMeta, Partition};

/// Partitions in memory. It never fails.
#[derive(Drop)]
pub struct MemFetch {
    parts: IndexMap<(u32, u64), Arc<Partition>>,
    asked: Vec<PartId>,
}

impl MemFetch {
    /// These partitions, each by its name. Of several of one name it has the last.
    pub fn new(
        alloc: Global,
        parts: Vec<(PartMeta, Arc<Partition>)>,
    ) -> Result<MemFetch, AllocError>
        ensures held { IfOk result (λ fetch. (id : PartId) → held fetch id
            ≡ held_in parts.items id) }
        ensures asked { IfOk result (λ fetch. fetch.asked.items ≡ []) }
    {
        let mut held = IndexMap::new(alloc);
        for (meta, part) in parts {
            held.insert(key(meta.id), part)?;
        }
        Ok(MemFetch {
            parts: held,
            asked: Vec::new(alloc),
        })
    }

    /// The partition of a name, if it is held.
    pub fn find(&self, id: PartId) -> Option<&Arc<Partition>>
        ensures { option_map arc_value (option_copied result) ≡ held self.now id }
    {
        self.parts.get(&key(id))
    }
}

// A name as a key.
fn key(id: PartId) -> (u32, u64)
    ensures { result ≡ (id.object, id.number) }
{
    (id.object, id.number)
}

impl Fetch for MemFetch {
    ghost use Rattle.std.specs.Prelude.{◌≡◌, None, refl, IsSome};
    ghost use Rattle.std.proofs.Common.{ap, sym, subst, ◌∙◌};
    ghost use Rattle.wh_part.specs.declared.meta.PartMeta.{PartMeta};
    ghost use Rattle.wh_fetch.specs.declared.mem_fetch.MemFetch.{MemFetch};
    ghost use Rattle.wh_fetch.specs.MemFetch.{held, Stays};

    ghost covers = { λ fetch part. IsSome (held fetch part.id) };

    ghost contents = { λ fetch part. held fetch part.id };

    ghost damage = { λ fetch. (0, None) };

    ghost asked = { λ fetch. fetch.asked.items };

    ghost faults = { λ fetch. 0 };

    ghost reads = { λ fetch. 0 };

    ghost stays = { Stays };

    ghost stays_so = { λ fetch id. refl };

    ghost stays_on = { λ first then last one two id. two id ∙ one id };

    ghost covers_on = { λ first last part on here. subst (λ o. IsSome o) (sym (on part.id)) here };

    ghost contents_on = { λ first last part on here. on part.id };

    fn fetch(&mut self, part: &PartMeta) -> Result<Arc<Partition>, FetchFault> {
        self.asked.push(part.id)?;
        let found = self.find(part.id).unwrap();
        Ok(Arc::try_clone(found)?)
    }

    fn fetched(&self) -> u64 {
        self.asked.len() as u64
    }
}
