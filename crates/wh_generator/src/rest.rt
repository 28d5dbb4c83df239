ghost use Rattle.std.specs.Prelude.{◌<◌, ◌≤◌, ◌+◌};

use crate::texts::{draw, put, put_piece};

/// What is still to come of the script: rows, and the last command.
#[derive(Debug, Drop)]
pub(crate) struct Rest {
    // how many rows are left
    pub(crate) left: u32,
    // the number of the next, from 0
    pub(crate) row: u32,
    // its two draws are those behind this one
    pub(crate) draw: u64,
    // the last command is given too
    pub(crate) closed: bool,
    ghost below: { draw < 2147483647 },
    ghost few: { left + row ≤ 200000 },
}

impl Rest {
    ghost use Rattle.std.specs.Prelude.{◌≡◌, [], ◌++◌, false, vec_len, vec_capacity};
    ghost use Rattle.wh_generator.specs.Rest.{behind};

    /// Makes the next piece of what is to come: none where nothing is.
    pub(crate) fn next_piece(&mut self, piece: &mut Vec<u8>)
        requires { 256 ≤ vec_capacity piece.old }
        ensures pieces { behind self.old ≡ piece.new.items ++ behind self.new }
        ensures ends { piece.new.items ≡ [] → behind self.new ≡ [] }
        ensures capacity { 256 ≤ vec_capacity piece.new }
    {
        piece.clear();
        if self.closed {
            return;
        }
        if self.left > 0 {
            self.next_row(piece);
        } else {
            self.close(piece);
        }
    }

    // The next row.
    fn next_row(&mut self, piece: &mut Vec<u8>)
        requires some { 0 < self.old.left }
        requires open { self.old.closed ≡ false }
        requires empty { piece.old.items ≡ [] }
        requires room { 256 ≤ vec_capacity piece.old }
        ensures pieces { behind self.old ≡ piece.new.items ++ behind self.new }
        ensures ends { piece.new.items ≡ [] → behind self.new ≡ [] }
        ensures capacity { 256 ≤ vec_capacity piece.new }
    {
        put_piece(piece, self.left - 1, self.row, self.draw);
        self.left -= 1;
        self.row += 1;
        self.draw = draw(draw(self.draw));
    }

    // The last command.
    #[tactic(auto, unfolding(crate::specs::Generated::closing))]
    fn close(&mut self, piece: &mut Vec<u8>)
        requires none { self.old.left ≡ 0 }
        requires open { self.old.closed ≡ false }
        requires empty { piece.old.items ≡ [] }
        requires room { 256 ≤ vec_capacity piece.old }
        ensures pieces { behind self.old ≡ piece.new.items ++ behind self.new }
        ensures ends { piece.new.items ≡ [] → behind self.new ≡ [] }
        ensures capacity { 256 ≤ vec_capacity piece.new }
    {
        self.closed = true;
        put(
            piece,
            b"SELECT COUNT(*) AS N, SUM(TOTAL) AS TOTAL FROM BENCH_D;\n",
        );
    }
}
