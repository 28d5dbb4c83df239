ghost use Rattle.std.specs.Prelude.{◌≡◌, ◌≤◌, ◌<◌, [], ◌++◌, length, take, drop, Some, IfOk};
ghost use Rattle.std.specs.Prelude.{vec_len, vec_capacity};
ghost use Rattle.wh_generator.specs.Rest.{behind};
ghost use Rattle.wh_generator.specs.Generated.{generated};

use crate::rest::Rest;
use std::alloc::{AllocError, Global};
use std::marker::Model;
use wh_world::{Failed, Source};

// What comes before the rows.
const OPENING: &[u8] =
    b"CREATE TABLE BENCH(K NUMBER, V NUMBER);\nCREATE STREAM BENCH_S ON TABLE BENCH;\nCREATE TABLE BENCH_T(K NUMBER, V NUMBER);\nCREATE DYNAMIC TABLE BENCH_D TARGET_LAG = '60 seconds' AS SELECT K, COUNT(*) AS N, SUM(V) AS TOTAL FROM BENCH_T GROUP BY K;\n";

/// A source of the generated script, which has one piece of it at a time. It never fails. Contracts
/// see the bytes that are still to come.
#[derive(Debug, Drop)]
pub struct Generator {
    piece: Vec<u8>,
    // how many bytes of the piece are given
    given: usize,
    rest: Rest,
}

impl Model for Generator {
    ghost use Rattle.std.specs.Prelude.{◌≤◌, List, ℕ, ◌++◌, drop, vec_len, vec_capacity};
    ghost use Rattle.wh_generator.specs.Rest.{behind};

    ghost Value = { List ℕ };

    ghost view = { λ g. drop g.given g.piece.items ++ behind g.rest };

    ghost invariant = { λ g. (g.given ≤ vec_len g.piece) × (256 ≤ vec_capacity g.piece) };
}

impl Generator {
    /// The script of so many rows, whose draws are those behind the seed.
    #[tactic(auto, unfolding(crate::specs::Generated::opening))]
    pub fn new(alloc: Global, rows: u32, seed: u32) -> Result<Generator, AllocError>
        requires few { rows ≤ 200000 }
        requires below { seed < 2147483647 }
        ensures { IfOk result (λ made. made ≡ generated rows seed) }
    {
        let mut piece = Vec::with_capacity(alloc, 256)?;
        piece.extend_from_slice(OPENING)?;
        Ok(Generator {
            piece,
            given: 0,
            rest: Rest {
                left: rows,
                row: 0,
                draw: seed as u64,
                closed: false,
            },
        })
    }
}

impl Source for Generator {
    ghost left = { λ g. Some g };

    ghost faults = { λ _. 0 };

    fn read(&mut self, buf: &mut [u8]) -> Result<usize, Failed> {
        refill(&mut self.piece, &mut self.given, &mut self.rest);
        let count = copy(&self.piece[self.given..], buf);
        self.given += count;
        Ok(count)
    }
}

// Makes the next piece, where all of this one is given.
fn refill(piece: &mut Vec<u8>, given: &mut usize, rest: &mut Rest)
    requires within { given.old ≤ vec_len piece.old }
    requires room { 256 ≤ vec_capacity piece.old }
    ensures same { drop given.new piece.new.items ++ behind rest.new
        ≡ drop given.old piece.old.items ++ behind rest.old }
    ensures ends { drop given.new piece.new.items ≡ [] → behind rest.new ≡ [] }
    ensures within { given.new ≤ vec_len piece.new }
    ensures room { 256 ≤ vec_capacity piece.new }
{
    if *given == piece.len() {
        rest.next_piece(piece);
        *given = 0;
    }
}

// Copies as many bytes as fit, and gives their number.
fn copy(bytes: &[u8], buf: &mut [u8]) -> usize
    requires { 0 < length buf.old }
    ensures copied { take result buf.new ≡ take result bytes.now }
    ensures most { result ≤ length bytes.now }
    ensures fits { result ≤ length buf.new }
    ensures none { result ≡ 0 → bytes.now ≡ [] }
{
    let count = buf.len().min(bytes.len());
    buf[..count].copy_from_slice(&bytes[..count]);
    count
}
