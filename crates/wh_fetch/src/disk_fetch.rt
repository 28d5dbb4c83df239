ghost use Rattle.std.specs.Prelude.{◌≡◌, [], None, IfOk, IfErr};

use crate::kept::Kept;
use lru::LruCache;
use std::alloc::{AllocError, Global};
use std::num::NonZeroUsize;
use wh_part::{NumberedRow, PartId};
use wh_world::Disk;

/// How many partitions are kept at most.
const MOST_KEPT: usize = 256;

/// The partitions of a file. Those that were used last are kept.
#[derive(Drop)]
pub struct DiskFetch<D> {
    pub disk: D,
    /// The partitions that it is asked for lie in so many of the first bytes, so that what it
    /// keeps stays right where the file changes behind these.
    pub reach: u64,
    pub(crate) cache: LruCache<u64, Kept>,
    pub(crate) asked: Vec<PartId>,
    // How many partitions were found damaged since `begin`, and the position of the last of them.
    pub(crate) spoilt: u64,
    pub(crate) damaged: Option<u64>,
    // Rows of partitions that are kept no longer, in whose memory others are read.
    pub(crate) spare: Vec<NumberedRow>,
    ghost most: { cache.cap ≡ 256 },
}

impl<D: Disk> DiskFetch<D> {
    /// Nothing is kept yet. Hands the disk back where memory runs out.
    pub fn new(alloc: Global, disk: D, reach: u64) -> Result<DiskFetch<D>, (AllocError, D)>
        ensures made { IfOk result (λ fetch. (fetch.disk ≡ disk) × (fetch.reach ≡ reach)) }
        ensures empty { IfOk result (λ fetch. fetch.cache.entries ≡ []) }
        ensures begun { IfOk result (λ fetch. (fetch.asked.items ≡ []) × (fetch.damaged ≡ None)) }
        ensures unspoilt { IfOk result (λ fetch. fetch.spoilt ≡ 0) }
        ensures back { IfErr result (λ e. e.1 ≡ disk) }
    {
        let most = NonZeroUsize::new(MOST_KEPT).unwrap();
        match LruCache::new(alloc, most) {
            Ok(cache) => Ok(DiskFetch {
                disk,
                reach,
                cache,
                asked: Vec::new(alloc),
                spoilt: 0,
                damaged: None,
                spare: Vec::new(alloc),
            }),
            Err(refused) => Err((refused, disk)),
        }
    }

    /// A new event: nothing was asked for in it, and nothing found damaged.
    pub fn begin(&mut self)
        ensures begun { (self.new.asked.items ≡ []) × (self.new.damaged ≡ None) }
        ensures kept { self.new.cache ≡ self.old.cache }
        ensures disk { (self.new.disk ≡ self.old.disk) × (self.new.reach ≡ self.old.reach) }
        ensures spoilt { self.new.spoilt ≡ 0 }
    {
        self.asked.clear();
        self.spoilt = 0;
        self.damaged = None;
    }

    /// The partitions that it was asked for since `begin`, in order.
    pub fn asked(&self) -> &[PartId]
        ensures { result.now ≡ self.now.asked.items }
    {
        self.asked.as_slice()
    }

    /// The position of the last partition that was found damaged since `begin`.
    pub fn damaged(&self) -> Option<u64>
        ensures { result ≡ self.now.damaged }
    {
        self.damaged
    }
}
