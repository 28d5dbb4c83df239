//! The live objects, as statements may name them.
ghost use Rattle.std.specs.Prelude.{◌≡◌, ◌<◌, ◌^◌, ◌++◌, [], ◌∷◌, if◌then◌else◌};
ghost use Rattle.std.specs.Prelude.{length, map, IfOk, OnOk};
ghost use Rattle.wh_naming.specs.View.{named_of};
ghost use Rattle.wh_machine.specs.Names.{named_object, names_from};
ghost use Rattle.wh_catalog.specs.Catalog.{state_of};
ghost use Rattle.wh_catalog.specs.Object.{object_of};

use std::alloc::{AllocError, Global};
use wh_catalog::{Catalog, StoredObject};
use wh_decide::named;
use wh_naming::Named;

/// All of them, by rising ids.
pub(crate) fn live_objects(alloc: Global, catalog: &Catalog) -> Result<Vec<Named<'_>>, AllocError>
    ensures { IfOk result (λ names. map named_of names.items
        ≡ names_from 1 (state_of catalog.now).objects) }
{
    live_among(alloc, catalog.objects())
}

// Those of objects by their ids from 1.
fn live_among(alloc: Global, objects: &[StoredObject]) -> Result<Vec<Named<'_>>, AllocError>
    requires { length objects.now < 2 ^ 32 }
    ensures { IfOk result (λ names. map named_of names.items
        ≡ names_from 1 (map object_of objects.now)) }
{
    let mut names = Vec::new(alloc);
    let mut id = 0;
    for object in objects {
        id += 1;
        add_live(&mut names, id, object)?;
    }
    Ok(names)
}

fn add_live<'a>(
    names: &mut Vec<Named<'a>>,
    id: u32,
    object: &'a StoredObject,
) -> Result<(), AllocError>
    ensures { OnOk result (map named_of names.new.items ≡ map named_of names.old.items
        ++ (if (object_of object.now).is_live then named_object id (object_of object.now) ∷ []
        else [])) }
{
    if object.is_live() {
        names.push(named(id, object))?;
    }
    Ok(())
}
