ghost use Rattle.std.specs.Prelude.{◌≡◌, true};

use crn_io::{
    Bytes, Lines, MemSink, MemSource, Next, Pull, Push, QuietSink, QuietSource, ReadStop, Sink,
    Source, StdSink, WriteFault, put_all, put_between, put_parts, read_all,
};
use std::process::Abort;

const TEXT: &[u8] = b"A -> B";

// What a reading shows: the bytes of a source, how many it gives a pull, the pulls that fail, the limit, and what is read.
type Reading = (
    &'static str,
    &'static [u8],
    usize,
    &'static [u32],
    usize,
    Result<&'static [u8], ReadStop>,
);

const READINGS: &[Reading] = &[
    ("in one pull", TEXT, 64, &[], 100, Ok(TEXT)),
    ("one byte a pull", TEXT, 1, &[], 100, Ok(TEXT)),
    ("no bytes", b"", 1, &[], 0, Ok(b"")),
    ("as many as the limit", TEXT, 4, &[], 6, Ok(TEXT)),
    (
        "one more than the limit",
        TEXT,
        4,
        &[],
        5,
        Err(ReadStop::TooLong),
    ),
    (
        "a fault in mid-stream",
        TEXT,
        4,
        &[2],
        100,
        Err(ReadStop::Failed),
    ),
    (
        "a fault after the last byte",
        TEXT,
        6,
        &[2],
        100,
        Err(ReadStop::Failed),
    ),
    (
        "no pull after one past the limit",
        TEXT,
        6,
        &[2],
        5,
        Err(ReadStop::TooLong),
    ),
    ("a fault at another call", TEXT, 6, &[3], 100, Ok(TEXT)),
];

fn is_read(got: &Result<Bytes, ReadStop>, want: &Result<&[u8], ReadStop>) -> bool {
    match (got, want) {
        (Ok(bytes), Ok(want)) => bytes.as_slice() == *want,
        (Err(stop), Err(want)) => *stop == *want,
        _ => false,
    }
}

fn reads(rt: &(impl Abort + AllocGlobal), row: &Reading) -> bool {
    let (_, bytes, most, failing, limit, want) = row;
    assert!(rt; *most >= 1);
    let mut source = MemSource::new(rt.alloc(), bytes, *most, failing).expect(rt, "memory");
    is_read(&read_all(rt.alloc(), &mut source, *limit), want)
}

#[test]
fn all_is_read_up_to_the_limit(rt: HostRuntime) {
    for row in READINGS {
        assert!(rt; reads(&rt, row), "{}", row.0);
    }
}

#[test]
fn nothing_is_pulled_after_a_fault(rt: HostRuntime) {
    let mut source = MemSource::new(rt.alloc(), b"ABC", 1, &[2]).expect(&rt, "memory");
    assert!(rt;
        is_read(
            &read_all(rt.alloc(), &mut source, 100),
            &Err(ReadStop::Failed)
        )
    );
    assert!(rt; pulls(&mut source, Pull::Got(1), b"B"));
}

// Whether a pull of a source ends so, and what it gave begins with these bytes.
fn pulls(source: &mut impl Source, want: Pull, bytes: &[u8]) -> bool {
    let mut buffer = [0u8; 3];
    source.pull(&mut buffer) == want && buffer.starts_with(bytes)
}

#[test]
fn a_source_in_memory_goes_on_after_a_listed_call(rt: HostRuntime) {
    let mut source = MemSource::new(rt.alloc(), b"ABC", 2, &[2]).expect(&rt, "memory");
    assert!(rt; pulls(&mut source, Pull::Got(2), b"AB") && pulls(&mut source, Pull::Failed, b""));
    assert!(rt; pulls(&mut source, Pull::Got(1), b"C") && pulls(&mut source, Pull::End, b""));
    assert!(rt; pulls(&mut source, Pull::End, b""));
}

const REPORT: &[u8] = b"crn report";

// What a writing shows: a piece, how many bytes a sink takes a push, the pushes that fail, the answer, and what it took.
type Writing = (
    &'static str,
    &'static [u8],
    usize,
    &'static [u32],
    Result<(), WriteFault>,
    &'static [u8],
);

const WRITINGS: &[Writing] = &[
    ("in one push", REPORT, 64, &[], Ok(()), REPORT),
    ("one byte a push", REPORT, 1, &[], Ok(()), REPORT),
    ("an empty piece without a push", b"", 1, &[1], Ok(()), b""),
    (
        "a fault in mid-stream",
        REPORT,
        7,
        &[2],
        Err(WriteFault),
        b"crn rep",
    ),
    (
        "a fault at the first byte",
        REPORT,
        7,
        &[1],
        Err(WriteFault),
        b"",
    ),
    ("a fault at another call", REPORT, 7, &[3], Ok(()), REPORT),
];

fn writes(rt: &(impl Abort + AllocGlobal), row: &Writing) -> bool {
    let (_, piece, most, failing, want, took) = row;
    assert!(rt; *most >= 1);
    let mut sink = MemSink::new(rt.alloc(), *most, failing).expect(rt, "memory");
    put_all(&mut sink, piece) == *want && sink.bytes() == *took
}

#[test]
fn all_is_written_up_to_a_fault(rt: HostRuntime) {
    for row in WRITINGS {
        assert!(rt; writes(&rt, row), "{}", row.0);
    }
}

#[test]
fn parts_are_written_one_after_another(rt: HostRuntime) {
    let mut sink = MemSink::new(rt.alloc(), 2, &[5]).expect(&rt, "memory");
    assert!(rt; put_parts(&mut sink, &[b"open", b"", b": ", b"0\n"]).is_ok());
    assert!(rt; put_parts(&mut sink, &[b"more", b"last"]).is_err());
    assert!(rt; sink.bytes() == b"open: 0\n".as_slice());
}

#[test]
fn pieces_are_written_with_a_separator_between_each_two(rt: HostRuntime) {
    let mut sink = MemSink::new(rt.alloc(), 2, &[]).expect(&rt, "memory");
    assert!(rt; put_between(&mut sink, b", ", 0, b"A").is_ok());
    assert!(rt; put_between(&mut sink, b", ", 1, b"B2").is_ok());
    assert!(rt; put_between(&mut sink, b", ", 2, b"").is_ok());
    assert!(rt; sink.bytes() == b"A, B2, ".as_slice());
}

// The piece of four bytes fits, three more do not, two do, and then there is no room.
#[test]
fn a_quiet_sink_takes_what_fits(rt: HostRuntime) {
    let mut sink = QuietSink::new(rt.alloc(), 6).expect(&rt, "memory");
    assert!(rt; put_all(&mut sink, b"A ->").is_ok() && put_all(&mut sink, b" BC").is_err());
    assert!(rt; put_all(&mut sink, b" B").is_ok() && sink.push(b"C") == Push::Failed);
    assert!(rt; sink.bytes() == b"A -> B".as_slice());
}

#[test]
fn a_quiet_source_gives_its_bytes(rt: HostRuntime) {
    let mut source = QuietSource::new(b"A -> B");
    assert!(rt; pulls(&mut source, Pull::Got(3), b"A -"));
    assert!(rt; is_read(&read_all(rt.alloc(), &mut source, 3), &Ok(b"> B")));
}

// The second write takes no bytes.
#[test]
fn writers_of_std_are_sinks(rt: HostRuntime) {
    let mut room = [0u8; 6];
    assert!(rt; put_all(&mut StdSink::new(room.as_mut_slice()), TEXT).is_ok());
    assert!(rt; room.as_slice() == TEXT);
    assert!(rt; put_all(&mut StdSink::new(room.as_mut_slice()), b"C <-> D").is_err());
}

// Whether the next calls give these answers and lines, and no more calls may follow them.
fn ends_after(lines: &mut Lines, source: &mut MemSource, wanted: &[(Next, &[u8])]) -> bool
    requires { lines.old.goes_on ≡ true }
{
    'calls: for (index, (answer, line)) in wanted.iter().enumerate() {
        let given = lines.next(source);
        if given != *answer || lines.line() != *line {
            return false;
        }
        match given {
            Next::Line => {}
            _ => return index + 1 == wanted.len(),
        }
    }
    false
}

// The answers of calls: a line "ab", an empty one, and each of the answers that end a document.
const AB: (Next, &[u8]) = (Next::Line, b"ab");

const EMPTY: (Next, &[u8]) = (Next::Line, b"");

const CD: (Next, &[u8]) = (Next::Last, b"cd");

const END: (Next, &[u8]) = (Next::End, b"");

const FAILED: (Next, &[u8]) = (Next::Failed, b"");

// Each row: what it shows, a text, the most bytes a pull, and the answers of the calls.
const CALLS: &[(&str, &[u8], usize, &[(Next, &[u8])])] = &[
    ("LF at the end", b"ab\n\n", 64, &[AB, EMPTY, END]),
    ("bytes one by one", b"ab\n\n", 1, &[AB, EMPTY, END]),
    (
        "an LF and the next byte at once",
        b"ab\n\n",
        2,
        &[AB, EMPTY, END],
    ),
    ("no LF at the end", b"ab\n\ncd", 64, &[AB, EMPTY, CD]),
    ("no LF, bytes one by one", b"ab\n\ncd", 1, &[AB, EMPTY, CD]),
    ("an empty document", b"", 64, &[END]),
    ("one LF", b"\n", 64, &[EMPTY, END]),
];

fn gives(
    rt: &(impl Abort + AllocGlobal),
    text: &[u8],
    most: usize,
    wanted: &[(Next, &[u8])],
) -> bool {
    assert!(rt; most >= 1);
    let mut source = MemSource::new(rt.alloc(), text, most, &[]).expect(rt, "memory");
    let mut lines = Lines::new(rt.alloc()).expect(rt, "memory");
    ends_after(&mut lines, &mut source, wanted)
}

#[test]
fn lines_are_given_one_after_another(rt: HostRuntime) {
    for (name, text, most, wanted) in CALLS {
        assert!(rt; gives(&rt, text, *most, wanted), "{name}");
    }
}

// Each row: the most bytes a pull, the pull that fails, the answers of the calls, and what is left.
const STOPS: &[(usize, u32, &[(Next, &[u8])], &[u8])] = &[
    (1, 1, &[FAILED], b"ab\n\ncd"),
    (1, 2, &[FAILED], b"b\n\ncd"),
    (1, 3, &[FAILED], b"\n\ncd"),
    (1, 4, &[AB, FAILED], b"\ncd"),
    (1, 5, &[AB, EMPTY, FAILED], b"cd"),
    (1, 6, &[AB, EMPTY, FAILED], b"d"),
    (1, 7, &[AB, EMPTY, FAILED], b""),
    (4, 1, &[FAILED], b"ab\n\ncd"),
    (4, 2, &[AB, EMPTY, FAILED], b"cd"),
    (64, 2, &[AB, EMPTY, FAILED], b""),
];

fn stops(rt: &(impl Abort + AllocGlobal), row: &(usize, u32, &[(Next, &[u8])], &[u8])) -> bool {
    let (most, call, wanted, left) = row;
    assert!(rt; *most >= 1);
    let mut source = MemSource::new(rt.alloc(), b"ab\n\ncd", *most, &[*call]).expect(rt, "memory");
    let mut lines = Lines::new(rt.alloc()).expect(rt, "memory");
    ends_after(&mut lines, &mut source, wanted)
        && is_read(&read_all(rt.alloc(), &mut source, 100), &Ok(*left))
}

#[test]
fn lines_end_with_a_fault_and_nothing_is_pulled_after_it(rt: HostRuntime) {
    for row in STOPS {
        assert!(rt;
            stops(&rt, row),
            "call {} fails, {} bytes a call",
            row.1,
            row.0
        );
    }
}
