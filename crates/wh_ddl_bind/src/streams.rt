ghost use Rattle.wh_naming.specs.Scope.{StreamObject};
ghost use Rattle.wh_ddl_naming.specs.Meant.{within};
ghost use Rattle.wh_ddl_naming.specs.Objects as objects;
ghost use Rattle.wh_ddl_naming.specs.Statements as bound;
ghost use Rattle.wh_ddl_naming.specs.Streams as naming;
ghost use Rattle.wh_ddl_bind.specs.View.{names_of};
ghost use Rattle.wh_ddl_bind.specs.Binds.{Binds};

use crate::objects::{object, object_of, taken_name};
use crate::tested::tested;
use crate::{Bound, Names, NewStream};
use sqlite_items::Boxed;
use std::alloc::Global;
use wh_bind::BindFault;
use wh_naming::ObjectKind;
use wh_value::Text;

/// SYSTEM$STREAM_HAS_DATA.
pub(crate) fn has_data(alloc: Global, names: &Names<'_>, name: &Text) -> Result<Bound, BindFault>
    ensures { Binds result (within bound.HasData
        (objects.object_of StreamObject (names_of names.now) name.now)) }
{
    Ok(Bound::HasData(object(alloc, names, ObjectKind::Stream, name)?))
}

/// DROP STREAM.
pub(crate) fn drop_stream(alloc: Global, names: &Names<'_>, name: &Text) -> Result<Bound, BindFault>
    ensures { Binds result (within bound.DropStream
        (objects.object_of StreamObject (names_of names.now) name.now)) }
{
    Ok(Bound::DropStream(object(alloc, names, ObjectKind::Stream, name)?))
}

/// CREATE STREAM.
pub(crate) fn create_stream(
    alloc: Global,
    names: &Names<'_>,
    name: &Text,
    table: &Text,
    is_append_only: bool,
) -> Result<Bound, BindFault>
    ensures { Binds result (within bound.CreateStream
        (naming.bound_stream (names_of names.now) name.now table.now is_append_only)) }
{
    let on = object_of(alloc, names, ObjectKind::Table, table)?;
    let table = on.id;
    let taken = taken_name(alloc, names, name)?;
    tested(taken, on.findings)?;
    let name = name.copy(alloc)?;
    Ok(Bound::CreateStream(Boxed::new(
        alloc,
        NewStream {
            name,
            table,
            is_append_only,
        },
    )?))
}
