use std::alloc::Global;
use std::process::Abort;
use wh_text::*;
use wh_value::Bytes;
use wh_world::{Failed, MemSource, Source};

/// Gives one byte at a time.
#[derive(Drop)]
struct OneByOne<'a> {
    bytes: &'a [u8],
    taken: usize,
}

impl<'a> Source for OneByOne<'a> {
    ghost use Rattle.std.specs.Prelude.{None};

    ghost left = { λ s. None };

    ghost faults = { λ s. 0 };

    fn read(&mut self, buf: &mut [u8]) -> Result<usize, Failed> {
        if self.taken >= self.bytes.len() {
            return Ok(0);
        }
        buf[0] = self.bytes[self.taken];
        self.taken += 1;
        Ok(1)
    }
}

/// Gives as many bytes as it is asked for, whatever they are.
#[derive(Drop)]
struct Endless {
    left: u64,
}

impl Source for Endless {
    ghost use Rattle.std.specs.Prelude.{None};

    ghost left = { λ s. None };

    ghost faults = { λ s. 0 };

    fn read(&mut self, buf: &mut [u8]) -> Result<usize, Failed> {
        let count = self.left.min(buf.len() as u64);
        self.left -= count;
        Ok(count as usize)
    }
}

/// A name, a script and its lines.
type Case = (&'static str, &'static [u8], &'static [u8]);

/// A name, then of a script and of its lines, how often a byte stands in front, and what follows.
type RunCase = (&'static str, usize, &'static [u8], usize, &'static [u8]);

/// Whether six turns over a source give these lines, each with a `|` behind it: a command's text,
/// `S` and a session, `T` and a reading. `!` where a turn fails, with the bytes of a script that is
/// too long.
fn gives<S: Source>(
    rt: &impl Abort,
    alloc: Global,
    mut script: Script,
    source: &mut S,
    want: &[u8],
) -> bool {
    let mut all = Bytes::new(alloc);
    add_lines(rt, &mut script, source, &mut all);
    all.as_slice() == want
}

fn add_lines<S: Source>(rt: &impl Abort, script: &mut Script, source: &mut S, all: &mut Bytes) {
    for _ in 0..6 {
        add_turn(rt, script.next(source), all);
    }
}

fn add_turn(rt: &impl Abort, turn: Result<Option<Line>, ScriptFault>, all: &mut Bytes) {
    match turn {
        Ok(Some(line)) => add_line(rt, &line, all),
        Ok(None) => {}
        Err(ScriptFault::TooLong { taken }) => add_marked(rt, b'!', Some(taken), all),
        Err(_) => all.push(b'!').expect(rt, "memory"),
    }
}

fn add_line(rt: &impl Abort, line: &Line, all: &mut Bytes) {
    match line {
        Line::Command(text) => all.extend(text.as_slice()).expect(rt, "memory"),
        Line::Session(session) => add_marked(rt, b'S', Some(*session), all),
        Line::Tick(reading) => add_marked(rt, b'T', *reading, all),
    }
    all.push(b'|').expect(rt, "memory");
}

fn add_marked(rt: &impl Abort, mark: u8, number: Option<u64>, all: &mut Bytes) {
    all.push(mark).expect(rt, "memory");
    if let Some(number) = number {
        all.extend_decimal(number).expect(rt, "memory");
    }
}

/// Whether a script comes to its lines. The reads of these numbers fail.
fn comes_to(
    rt: &impl Abort,
    alloc: Global,
    script: Vec<u8>,
    failing: Vec<u64>,
    want: &[u8],
) -> bool {
    let mut source = MemSource::new(script, failing);
    gives(rt, alloc, Script::new(alloc), &mut source, want)
}

fn comes_to_by_bytes(rt: &impl Abort, alloc: Global, script: &[u8], want: &[u8]) -> bool {
    let mut source = OneByOne {
        bytes: script,
        taken: 0,
    };
    gives(rt, alloc, Script::new(alloc), &mut source, want)
}

fn text_comes_to(rt: &impl Abort, alloc: Global, script: &[u8], want: &[u8]) -> bool {
    let script = script.to_vec(alloc).expect(rt, "memory");
    comes_to(rt, alloc, script, Vec::new(alloc), want)
}

/// Each script comes to its lines, also byte by byte.
fn check(rt: &impl Abort, alloc: Global, cases: &[Case]) {
    for (name, script, want) in cases {
        let same = comes_to_by_bytes(rt, alloc, script, want);
        assert!(rt; same && text_comes_to(rt, alloc, script, want), "{name}");
    }
}

/// The byte so many times, and what follows.
fn run(rt: &impl Abort, alloc: Global, byte: u8, count: usize, behind: &[u8]) -> Vec<u8> {
    let mut bytes = Vec::new(alloc);
    bytes.resize(count, byte).expect(rt, "memory");
    bytes.extend_from_slice(behind).expect(rt, "memory");
    bytes
}

fn run_comes_to(rt: &impl Abort, alloc: Global, byte: u8, case: &RunCase) -> bool {
    let (_, count, behind, kept, last) = case;
    let script = run(rt, alloc, byte, *count, behind);
    let want = run(rt, alloc, byte, *kept, last);
    comes_to(rt, alloc, script, Vec::new(alloc), want.as_slice())
}

fn check_runs(rt: &impl Abort, alloc: Global, byte: u8, cases: &[RunCase]) {
    for case in cases {
        let name = case.0;
        assert!(rt; run_comes_to(rt, alloc, byte, case), "{name}");
    }
}

#[test]
fn a_script_has_its_lines_whatever_the_pieces_it_comes_in(rt: HostRuntime) {
    const CASES: &[Case] = &[
        // Semicolons end commands,
        ("no byte", b"", b""),
        ("blanks and semicolons", b" ;\t;\r\n", b""),
        ("no last semicolon", b"a;b", b"a|b|"),
        ("blanks", b" \r\n a \t;\tb\n", b"a \t|b\n|"),
        ("no text", b"\xff\x00;\x0bc3", b"\xff\x00|\x0bc3|"),
        // but not in quotes,
        ("a text", b"'a;b';c", b"'a;b'|c|"),
        ("a name", b"\"a;b\";c", b"\"a;b\"|c|"),
        ("a doubled quote", b"'a'';b';c", b"'a'';b'|c|"),
        ("the other quote", b"'\";';\"';\"", b"'\";'|\"';\"|"),
        ("a backslash", b"'\\';a", b"'\\'|a|"),
        ("no end", b"a;'b;c", b"a|'b;c|"),
        // nor in comments.
        ("to the line's end", b"a--b;'\nd;e", b"a--b;'\nd|e|"),
        ("to its own end", b"a/*b;c*/d;e", b"a/*b;c*/d|e|"),
        ("none in quotes", b"'--';'/*';b", b"'--'|'/*'|b|"),
        ("one sign", b"a-b/c;- -;/ *;b", b"a-b/c|- -|/ *|b|"),
        ("a slash before", b"//*a;*/b;c", b"//*a;*/b|c|"),
        ("no end", b"a/*b;c", b"a/*b;c|"),
        ("a slash behind", b"a/*/;*/;b", b"a/*/;*/|b|"),
        // Comments between commands are passed over.
        ("both kinds", b"---a;b\nc;/*d;*/e;", b"c|e|"),
        ("stars", b"/*;* /**;**//*;*/a;b", b"a|b|"),
        ("at the end", b"a;--b", b"a|"),
        ("no end", b"a;/*b;*", b"a|/*b;*|"),
        ("a slash behind", b"/*/;a", b"/*/;a|"),
        ("an end alone", b"*/a;/;-", b"*/a|/|-|"),
        // Marked lines: sessions
        ("a CR", b"!session 2\r\na;", b"S2|a|"),
        ("two", b"!session 2\r\r\na;", b"!session 2\r|a|"),
        ("a CR at the end", b"!session 2\r", b"!session 2\r|"),
        ("no line end", b"a;!session 007", b"a|S7|"),
        ("nine digits", b"!session 999999999\n", b"S999999999|"),
        (
            "ten digits",
            b"!session 0000000001\n",
            b"!session 0000000001|",
        ),
        ("no number", b"!session \n", b"!session |"),
        // and ticks.
        ("no reading", b" !tick\r\na", b"T|a|"),
        ("a reading", b"!tick 5\n!tick 0", b"T5|T0|"),
        (
            "most digits",
            b"!tick 999999999999999999",
            b"T999999999999999999|",
        ),
        (
            "one more",
            b"!tick 0000000000000000001",
            b"!tick 0000000000000000001|",
        ),
        ("two spaces", b"!tick  5\n!tick 5 ", b"!tick  5|!tick 5 |"),
        ("other words", b"!TICK\n!ticks\n!", b"!TICK|!ticks|!|"),
        (
            "signs and letters",
            b"!tick -5\n!tick 5a",
            b"!tick -5|!tick 5a|",
        ),
        ("a semicolon", b"!tick 5;'--\nb", b"!tick 5;'--|b|"),
        ("in a command", b"a\n!tick\n;b", b"a\n!tick\n|b|"),
    ];
    check(&rt, rt.alloc(), CASES);
}

// Runs of `x` are texts and runs of `!` are lines; a command `y` stands behind each.
#[test]
fn a_long_line_is_given_by_its_front(rt: HostRuntime) {
    const TEXTS: &[RunCase] = &[
        ("one below the most", 65535, b";y", 65535, b"|y|"),
        ("as long as a text may be", 65536, b";y", 65536, b"|y|"),
        ("one more", 65537, b";y", 65537, b"|y|"),
        ("one that isn't kept", 65538, b";y", 65537, b"|y|"),
        ("more than a read", 70000, b";y", 65537, b"|y|"),
        ("many reads", 200000, b";y", 65537, b"|y|"),
    ];
    const MARKED: &[RunCase] = &[
        ("as long as a text may be", 65536, b"\ny", 65536, b"|y|"),
        ("and a CR", 65536, b"\r\ny", 65536, b"|y|"),
        ("one more, and a CR", 65537, b"\r\ny", 65537, b"|y|"),
        (
            "a CR that isn't the last",
            65536,
            b"\rx\ny",
            65536,
            b"\r|y|",
        ),
        ("more than a read", 70000, b"\ny", 65537, b"|y|"),
    ];
    check_runs(&rt, rt.alloc(), b'x', TEXTS);
    check_runs(&rt, rt.alloc(), b'!', MARKED);
}

// The second read comes in the second command, and the third at the end.
#[test]
fn a_failed_read_stays(rt: HostRuntime) {
    const CASES: [(&str, &[u64], &[u8]); 4] = [
        ("no failure", &[], b"a|b|c|"),
        ("the first read", &[1], b"!!!!!!"),
        ("the second read", &[2], b"a|!!!!!"),
        ("the last read", &[3], b"a|b|!!!!"),
    ];
    for (name, failing, want) in &CASES {
        assert!(rt; apart_comes_to(&rt, rt.alloc(), failing, want), "{name}");
    }
}

/// Whether three commands, of which the second ends behind a read, come to these lines.
fn apart_comes_to(rt: &impl Abort, alloc: Global, failing: &[u64], want: &[u8]) -> bool {
    let script = commands_apart(rt, alloc);
    let failing = failing.to_vec(alloc).expect(rt, "memory");
    comes_to(rt, alloc, script, failing, want)
}

fn commands_apart(rt: &impl Abort, alloc: Global) -> Vec<u8> {
    let mut script = Vec::new(alloc);
    script.extend_from_slice(b"a;").expect(rt, "memory");
    script.resize(65540, b' ').expect(rt, "memory");
    script.extend_from_slice(b"b;c").expect(rt, "memory");
    script
}

// All but three of the 2^30 bytes were taken before.
#[test]
fn a_script_may_have_two_to_the_30_bytes(rt: HostRuntime) {
    const CASES: [(&str, u64, &[u8]); 3] = [
        ("as many", 3, b"\0\0\0|"),
        (
            "one more",
            4,
            b"!1073741825!1073741825!1073741825!1073741825!1073741825!1073741825",
        ),
        (
            "many more",
            1000000,
            b"!1073807357!1073807357!1073807357!1073807357!1073807357!1073807357",
        ),
    ];
    for (name, left, want) in &CASES {
        assert!(rt; rest_comes_to(&rt, rt.alloc(), *left, want), "{name}");
    }
}

fn rest_comes_to(rt: &impl Abort, alloc: Global, left: u64, want: &[u8]) -> bool {
    let script = Script::after(alloc, 1073741821);
    gives(rt, alloc, script, &mut Endless { left }, want)
}
