ghost use Rattle.std.specs.Prelude.{◌≤◌, OnOk, OnErr};
ghost use Rattle.wh_world.specs.Told.{Rose};
ghost use Rattle.wh_shell.specs.Writing.{Writes, WritesFront};

use wh_world::{Failed, Sink};

/// Writes the whole piece. At Err a front of it was written.
pub(crate) fn write_all<K: Sink>(out: &mut K, piece: &[u8]) -> Result<(), Failed>
    ensures written { OnOk result (Writes piece.now (K.held out.old) (K.held out.new)) }
    ensures front { OnErr result (WritesFront piece.now (K.held out.old) (K.held out.new)) }
    ensures later { K.faults out.old ≤ K.faults out.new }
    ensures failed { OnErr result (Rose (K.faults out.old) (K.faults out.new)) }
{
    let mut at = 0;
    'pieces: while at < piece.len() {
        let taken = out.write(&piece[at..])?;
        at += taken;
    }
    Ok(())
}
