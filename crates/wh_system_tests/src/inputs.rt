use std::io;
use std::io::{ErrorKind, Read};
use wh_system::InSource;
use wh_world::{Failed, Source};

// Each read fails in the same way.
#[derive(Drop)]
struct Failing(ErrorKind);

impl Read for Failing {
    fn read(&mut self, _buf: &mut [u8]) -> io::Result<usize> {
        Err(io::Error::from(self.0))
    }
}

// Signals cut into the first reads, so many; then there are bytes.
#[derive(Drop)]
struct Interrupted<'a>(u32, &'a [u8]);

impl Read for Interrupted<'_> {
    fn read(&mut self, buf: &mut [u8]) -> io::Result<usize> {
        if self.0 > 0 {
            self.0 -= 1;
            return Err(io::Error::from(ErrorKind::Interrupted));
        }
        self.1.read(buf)
    }
}

/// How many signals cut into a call over two bytes, and what it gives.
pub(crate) const SIGNALS: [(&str, u32, Result<usize, Failed>); 4] = [
    ("none", 0, Ok(2)),
    ("one", 1, Ok(2)),
    ("one less than the tries", 999, Ok(2)),
    ("one for each try", 1000, Err(Failed)),
];

#[test]
fn a_read_goes_on_after_signals(rt: HostRuntime) {
    let mut buf = [0u8; 2];
    for (name, signals, want) in SIGNALS {
        let mut source = InSource::new(Interrupted(signals, b"ab"));
        assert_eq!(rt; source.read(&mut buf), want, "{name}");
    }
}

#[test]
fn a_reader_gives_its_bytes_or_fails(rt: HostRuntime) {
    let mut buf = [0u8; 2];
    let mut source = InSource::new(b"abc".as_slice());
    for (count, want) in [(2, *b"ab"), (1, *b"cb"), (0, *b"cb")] {
        assert_eq!(rt; source.read(&mut buf), Ok(count), "of {count}");
        assert_eq!(rt; buf, want, "of {count}");
    }
    for kind in [ErrorKind::Interrupted, ErrorKind::BrokenPipe] {
        let mut source = InSource::new(Failing(kind));
        assert_eq!(rt; source.read(&mut buf), Err(Failed));
    }
}
