//! The ids of names.
ghost use Rattle.std.specs.Prelude.{◌≡◌, ◌≤◌, ℕ, Some, List, cond, length, bytes_eq, IsSome, OnOk};
ghost use Rattle.std.specs.Prelude.{OnErr};
ghost use Rattle.wh_value.specs.Limit.{bound};
ghost use Rattle.wh_value.specs.declared.limit.Limit.TheVariants as limits;
ghost use Rattle.wh_catalog.specs.Names.{id_at, last_id, names_of};

use crate::StoredObject;
use indexmap::IndexMap;
use std::alloc::{AllocError, Global};

/// The id of the last of these objects that was made under that name.
pub(crate) fn last_id(objects: &[StoredObject], name: &[u8]) -> Option<u32>
    requires { length objects.now ≤ bound limits.ObjectIds }
    ensures { result ≡ last_id name.now (names_of objects.now) }
{
    let mut left = objects.len();
    while 0 < left {
        left -= 1;
        let object = &objects[left];
        if object.name.as_bytes() == name {
            return Some(left as u32 + 1);
        }
    }
    None
}

/// Gives a name that id.
pub(crate) fn give_id(
    names: &mut IndexMap<Vec<u8>, u32>,
    alloc: Global,
    name: &[u8],
    id: u32,
) -> Result<(), AllocError>
    ensures given { OnOk result ((other : List ℕ) → id_at names.new other
        ≡ cond (bytes_eq name.now other) (Some id) (id_at names.old other)) }
    ensures same { OnErr result ((other : List ℕ) → id_at names.new other ≡ id_at names.old other) }
{
    let key = Vec::from_slice(alloc, name)?;
    names.insert(key, id)?;
    Ok(())
}

/// Gives a name that has an id another one, or none. Takes no memory, and can't fail.
pub(crate) fn change_id(names: &mut IndexMap<Vec<u8>, u32>, name: &[u8], id: Option<u32>)
    requires { IsSome (id_at names.old name.now) }
    ensures { (other : List ℕ) → id_at names.new other
        ≡ cond (bytes_eq name.now other) id (id_at names.old other) }
{
    match id {
        Some(id) => {
            if let Some(place) = names.get_mut(name) {
                *place = id;
            }
        }
        None => {
            names.swap_remove(name);
        }
    }
}
