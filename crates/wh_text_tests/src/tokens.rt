use std::alloc::Global;
use std::process::Abort;
use wh_lex::{LexFault, tokens};
use wh_value::Bytes;

fn repeated(rt: &impl Abort, alloc: Global, byte: u8, times: usize) -> Bytes {
    let mut text = Bytes::new(alloc);
    for _ in 0..times {
        text.push(byte).expect(rt, "memory");
    }
    text
}

/// How many tokens a text has.
fn count(alloc: Global, text: &[u8]) -> Result<usize, LexFault> {
    Ok(tokens(alloc, text)?.len())
}

/// A text of so many of one byte has so many tokens.
fn assert_count(
    rt: &impl Abort,
    alloc: Global,
    byte: u8,
    times: usize,
    want: Result<usize, LexFault>,
) {
    let text = repeated(rt, alloc, byte, times);
    assert_eq!(rt; count(alloc, text.as_slice()), want, "{times} of {byte}");
}

#[test]
fn long_texts_are_read(rt: HostRuntime) {
    let alloc = rt.alloc();
    assert_count(&rt, alloc, b'a', 65536, Ok(1));
    assert_count(&rt, alloc, b'a', 65537, Err(LexFault::SyntaxError));
    assert_count(&rt, alloc, b'<', 65537, Ok(65537));
    assert_count(&rt, alloc, 0, 1, Err(LexFault::SyntaxError));
}
