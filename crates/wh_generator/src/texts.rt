ghost use Rattle.std.specs.Prelude.{◌≡◌, ◌≤◌, ◌<◌, ◌+◌, ◌*◌, ◌^◌, ◌++◌, decimal, vec_len, vec_capacity, length};
ghost use Rattle.wh_generator.specs.Generated.{draw, row_text, front, back, batch_end, piece};

use itoa::Buffer;

/// The draw behind one.
pub(crate) fn draw(x: u64) -> u64
    requires { x < 2147483647 }
    ensures drawn { result ≡ draw x }
    ensures below { result < 2147483647 }
{
    x * 16807 % 2147483647
}

/// Adds bytes, for which there is room.
pub(crate) fn put(piece: &mut Vec<u8>, bytes: &[u8])
    requires { vec_len piece.old + length bytes.now ≤ vec_capacity piece.old }
    ensures items { piece.new.items ≡ piece.old.items ++ bytes.now }
    ensures len { vec_len piece.new ≡ vec_len piece.old + length bytes.now }
    ensures capacity { vec_capacity piece.old ≤ vec_capacity piece.new }
{
    piece.extend_from_slice(bytes).unwrap();
}

/// Adds a number in decimal, for which there is room.
pub(crate) fn put_number(piece: &mut Vec<u8>, number: u64)
    requires { vec_len piece.old + 40 ≤ vec_capacity piece.old }
    ensures items { piece.new.items ≡ piece.old.items ++ decimal number }
    ensures len { vec_len piece.new ≤ vec_len piece.old + 40 }
    ensures capacity { vec_capacity piece.old ≤ vec_capacity piece.new }
{
    let mut buffer = Buffer::new();
    put(piece, buffer.format(number).as_bytes());
}

/// Adds a row with what stands before and behind it.
pub(crate) fn put_piece(out: &mut Vec<u8>, left: u32, row: u32, x: u64)
    requires room { vec_len out.old + 256 ≤ vec_capacity out.old }
    requires below { x < 2147483647 }
    ensures items { out.new.items ≡ out.old.items ++ piece left row x }
    ensures capacity { vec_capacity out.old ≤ vec_capacity out.new }
{
    put_front(out, row);
    put_row(out, x);
    put_back(out, left, row);
}

// What stands before a row.
fn put_front(out: &mut Vec<u8>, row: u32)
    requires { vec_len out.old + 30 ≤ vec_capacity out.old }
    ensures items { out.new.items ≡ out.old.items ++ front row }
    ensures len { vec_len out.new ≤ vec_len out.old + 30 }
    ensures capacity { vec_capacity out.old ≤ vec_capacity out.new }
{
    if row % 500 == 0 {
        put(out, b"INSERT INTO BENCH VALUES ");
    } else {
        put(out, b",");
    }
}

fn put_row(out: &mut Vec<u8>, x: u64)
    requires room { vec_len out.old + 90 ≤ vec_capacity out.old }
    requires below { x < 2147483647 }
    ensures items { out.new.items ≡ out.old.items ++ row_text x }
    ensures len { vec_len out.new ≤ vec_len out.old + 90 }
    ensures capacity { vec_capacity out.old ≤ vec_capacity out.new }
{
    let first = draw(x);
    put(out, b"(");
    put_number(out, first % 100);
    put(out, b",");
    put_number(out, draw(first) % 1000);
    put(out, b")");
}

// What stands behind a row: the last one of a batch ends it.
fn put_back(out: &mut Vec<u8>, left: u32, row: u32)
    requires { vec_len out.old + 120 ≤ vec_capacity out.old }
    ensures items { out.new.items ≡ out.old.items ++ back left row }
    ensures capacity { vec_capacity out.old ≤ vec_capacity out.new }
{
    if left == 0 || row % 500 == 499 {
        put_batch_end(out, row / 500 + 1);
    }
}

fn put_batch_end(out: &mut Vec<u8>, batch: u32)
    requires { vec_len out.old + 120 ≤ vec_capacity out.old }
    ensures items { out.new.items ≡ out.old.items ++ batch_end batch }
    ensures capacity { vec_capacity out.old ≤ vec_capacity out.new }
{
    put(
        out,
        b";\nINSERT INTO BENCH_T SELECT K, V FROM BENCH_S;\n!tick ",
    );
    put_number(out, 48000 * batch as u64);
    put(out, b"\n");
}
