//! What tells between which numbers the rows of a partition lie.
ghost use Rattle.std.specs.Prelude.{◌≡◌};
ghost use Rattle.wh_frame.specs.Partition.{Partition as Rows, first_number, last_number};

use wh_filed::FiledPartition;
use wh_part::{Outline, Partition};

pub(crate) trait Ranged {
    /// The partition.
    ghost rows: { Self → Rows };

    fn first_row(&self) -> u64
        ensures { result ≡ first_number (rows self.now).rows };

    fn last_row(&self) -> u64
        ensures { result ≡ last_number (rows self.now).rows };
}

impl Ranged for Partition {
    ghost rows = { λ p. p };

    fn first_row(&self) -> u64 {
        self.first()
    }

    fn last_row(&self) -> u64 {
        self.last()
    }
}

impl Ranged for Outline {
    ghost rows = { λ o. o };

    fn first_row(&self) -> u64 {
        self.first()
    }

    fn last_row(&self) -> u64 {
        self.last()
    }
}

impl Ranged for FiledPartition {
    ghost rows = { λ f. f.partition };

    fn first_row(&self) -> u64 {
        self.first()
    }

    fn last_row(&self) -> u64 {
        self.last()
    }
}
