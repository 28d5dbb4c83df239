use crate::inputs::SIGNALS;
use std::io;
use std::io::{ErrorKind, Write};
use std::test::Fail;
use wh_system::OutSink;
use wh_world::{Failed, Sink};

// A writer that takes nothing.
#[derive(Drop)]
struct Full;

impl Write for Full {
    fn write(&mut self, _piece: &[u8]) -> io::Result<usize> {
        Ok(0)
    }

    fn flush(&mut self) -> io::Result<()> {
        Ok(())
    }
}

// A writer that takes one byte at a time.
#[derive(Drop)]
struct Slow(Vec<u8>);

impl Write for Slow {
    fn write(&mut self, piece: &[u8]) -> io::Result<usize> {
        match piece.first() {
            Some(byte) => self.0.write(&[*byte]),
            None => Ok(0),
        }
    }

    fn flush(&mut self) -> io::Result<()> {
        Ok(())
    }
}

// Signals cut into the first writes, so many; then each piece is taken.
#[derive(Drop)]
struct Interrupted(u32);

impl Write for Interrupted {
    fn write(&mut self, piece: &[u8]) -> io::Result<usize> {
        if self.0 > 0 {
            self.0 -= 1;
            return Err(io::Error::from(ErrorKind::Interrupted));
        }
        Ok(piece.len())
    }

    fn flush(&mut self) -> io::Result<()> {
        Ok(())
    }
}

#[test]
fn a_write_goes_on_after_signals(rt: HostRuntime) {
    for (name, signals, want) in SIGNALS {
        let mut sink = OutSink::new(Interrupted(signals));
        assert_eq!(rt; sink.write(b"ab"), want, "{name}");
    }
}

#[test]
fn a_writer_takes_each_piece_or_fails(rt: HostRuntime) -> Result<(), Fail> {
    let mut taken = Vec::new(rt.alloc());
    let mut sink = OutSink::new(&mut taken);
    assert_eq!(rt; sink.write(b"ab"), Ok(2));
    assert_eq!(rt; sink.write(b"c"), Ok(1));
    drop(sink);
    assert_eq!(rt; taken.as_slice(), b"abc".as_slice());
    let mut full = OutSink::new(Full);
    assert_eq!(rt; full.write(b"ab"), Err(Failed));
    Ok(())
}

#[test]
fn what_is_counted_is_what_was_taken(rt: HostRuntime) -> Result<(), Fail> {
    let mut slow = Slow(Vec::new(rt.alloc()));
    let mut sink = OutSink::new(&mut slow);
    assert_eq!(rt; sink.write(b"abc"), Ok(1));
    assert_eq!(rt; sink.write(b"bc"), Ok(1));
    assert_eq!(rt; sink.write(b"c"), Ok(1));
    drop(sink);
    assert_eq!(rt; slow.0.as_slice(), b"abc".as_slice());
    Ok(())
}
