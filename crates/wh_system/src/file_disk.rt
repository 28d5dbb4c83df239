ghost use Rattle.std.specs.Prelude.{◌≡◌, ◌↔◌, ◌≤◌, None, IfOk, IsTrue, IsFalse, MatchResult};
ghost use Rattle.std.specs.Fs.{metadata_len};
ghost use Rattle.wh_world.specs.Told.{Rose};
ghost use Rattle.wh_system.specs.Untold.{untold};
ghost use Rattle.wh_system.specs.Opening.{IsOpening, error_of_lock};

use std::fs::{File, Files, Metadata, OpenOptions, TryLockError};
use std::io;
use std::os::unix::fs::FileExt;
use wh_world::{Disk, Failed};

/// Why a file isn't opened.
#[derive(Debug, Drop)]
pub enum OpenError {
    /// Another opening of the file holds its lock.
    Locked,
    /// The system opens it not, or gives neither its lock nor its length.
    System(io::Error),
}

impl From<io::Error> for OpenError {
    ghost use Rattle.wh_system.specs.declared.file_disk.OpenError.TheVariants.{System};

    ghost from_gives = { λ e given. given ≡ System e };

    fn from(error: io::Error) -> OpenError {
        OpenError::System(error)
    }
}

impl From<TryLockError> for OpenError {
    ghost from_gives = { λ e given. given ≡ error_of_lock e };

    fn from(error: TryLockError) -> OpenError {
        match error {
            TryLockError::WouldBlock => OpenError::Locked,
            TryLockError::Error(error) => OpenError::System(error),
        }
    }
}

/// A file of the system, opened for reading and writing. Its bytes aren't told, but their number
/// is.
///
/// It holds the system's lock on the file until it is dropped, so no other `FileDisk` has the file
/// meanwhile. A program that doesn't ask for the lock can still write to it: before each write the
/// file's length is compared with the one that was left, and where it is another the write fails.
/// What remains is a change that leaves the length as it was, or that comes between this comparison
/// and the write.
#[derive(Drop)]
pub struct FileDisk {
    file: File,
    size: u64,
    reads: u64,
    faults: u64,
}

impl FileDisk {
    /// Opens the file of that path, creates it where it isn't there, and takes its lock without
    /// waiting.
    pub fn open(rt: &impl Files<File = File>, path: &str) -> Result<FileDisk, OpenError>
        ensures fresh { IfOk result (λ disk. (disk.faults ≡ 0) × (disk.reads ≡ 0)) }
    {
        let file = OpenOptions::new()
            .read(true)
            .write(true)
            .create(true)
            .open(rt, path)?;
        let lock = file.try_lock();
        let metadata = file.metadata();
        FileDisk::opened(file, lock, metadata)
    }

    // What an opening gives, by what the system gave of the file's lock and of its length.
    fn opened(
        file: File,
        lock: Result<(), TryLockError>,
        metadata: io::Result<Metadata>,
    ) -> Result<FileDisk, OpenError>
        ensures { IsOpening file lock metadata result }
    {
        lock?;
        let size = metadata?.len();
        Ok(FileDisk {
            file,
            size,
            reads: 0,
            faults: 0,
        })
    }

    fn fail(&mut self) -> Failed
        ensures size { self.new.size ≡ self.old.size }
        ensures reads { self.new.reads ≡ self.old.reads }
        ensures rose { Rose self.old.faults self.new.faults }
        ensures later { self.old.faults ≤ self.new.faults }
    {
        self.faults = self.faults.saturating_add(1);
        Failed
    }
}

impl Disk for FileDisk {
    ghost bytes = { λ _. None };

    ghost may_leave = { λ _ _. ⊥ };

    ghost moment = { λ _. 0 };

    ghost left_since = { λ _ _ _. ⊥ };

    ghost faults = { λ disk. disk.faults };

    ghost reads = { λ disk. disk.reads };

    ghost size = { λ disk. disk.size };

    ghost spans = { λ disk b told. untold b told };

    ghost shown = { λ disk b told. untold b told };

    ghost counts_now = { λ disk t image past now. now };

    ghost only_now = { λ disk image none. none };

    fn len(&mut self) -> Result<u64, Failed> {
        Ok(self.size)
    }

    fn fault_count(&self) -> u64 {
        self.faults
    }

    fn read(&mut self, at: u64, buf: &mut [u8]) -> Result<(), Failed> {
        self.reads = self.reads.saturating_add(1);
        if self.file.read_exact_at(buf, at).is_err() {
            return Err(self.fail());
        }
        Ok(())
    }

    fn write_at(&mut self, at: u64, piece: &[u8]) -> Result<(), Failed> {
        if !has_length(self.file.metadata(), self.size)
            || self.file.write_all_at(piece, at).is_err()
        {
            return Err(self.fail());
        }
        self.size = self.size.max(at + piece.len() as u64);
        Ok(())
    }

    // The bytes and the file's length: its times needn't be kept, and take longer.
    fn sync(&mut self) -> Result<(), Failed> {
        if self.file.sync_data().is_err() {
            return Err(self.fail());
        }
        Ok(())
    }
}

// Whether the file's length is that one.
fn has_length(metadata: io::Result<Metadata>, size: u64) -> bool
    ensures { MatchResult metadata
        (λ told. IsTrue result ↔ (metadata_len told ≡ size)) (λ error. IsFalse result) }
{
    match metadata {
        Ok(told) => told.len() == size,
        Err(_) => false,
    }
}
