//! Tables of calls of the outside, of which some fail.
ghost use Rattle.std.specs.Prelude.{◌≤◌, IfOk};

use super::*;
use crate::path::path_in;
use crate::whole::{ReadError, read_whole, write_whole};
use std::alloc::{AllocError, Global};
use std::io;
use std::io::{ErrorKind, Read, Write};

// A place, a name, the most bytes, and what a fetch gives.
static FETCHES: [(Place, &str, u32, &str); 7] = [
    (Place::Work, "empty", 0, "Found "),
    (Place::Parts, "3001.dat", 4, "Found abcd"),
    (Place::Parts, "3001.dat", 3, "TooBig abcd"),
    (Place::Parts, "3001.dat", 0, "TooBig a"),
    (Place::P, "3001.dat", 4294967295, "Found xyz"),
    (Place::Model, "3001.dat", 4, "Absent "),
    (Place::Parts, "3001.DAT", 4, "Absent "),
];

fn is_shown(shown: Result<String, AllocError>, want: &str) -> bool {
    match shown {
        Ok(shown) => shown.as_str() == want,
        Err(_) => false,
    }
}

fn fetch_word(got: Result<Fetched, FetchError>) -> &'static str {
    match got {
        Ok(Fetched::Found) => "Found",
        Ok(Fetched::Absent) => "Absent",
        Err(FetchError::Failed) => "Failed",
        Err(FetchError::TooBig) => "TooBig",
        Err(FetchError::Memory) => "Memory",
    }
}

fn fetched(
    alloc: Global,
    shelf: &mut impl Shelf,
    place: Place,
    name: &str,
    max: u32,
) -> Result<String, AllocError> {
    let mut into = Vec::new(alloc);
    let got = shelf.fetch(place, name.as_bytes(), u64::from(max), &mut into);
    let bytes = String::from_utf8_lossy(alloc, into.as_slice())?;
    let word = fetch_word(got);
    format!(in alloc; "{word} {bytes}")
}

// The files of both shelves, of which a later one counts.
static FILES: [(Place, &[u8], &[u8]); 4] = [
    (Place::Work, b"empty", b""),
    (Place::Parts, b"3001.dat", b"old"),
    (Place::P, b"3001.dat", b"xyz"),
    (Place::Parts, b"3001.dat", b"abcd"),
];

fn sure_shelf(alloc: Global) -> Result<SureShelf, AllocError> {
    let mut shelf = SureShelf::new(alloc);
    for (place, name, bytes) in &FILES {
        shelf.add(*place, name, bytes)?;
    }
    Ok(shelf)
}

// One of which the first fetch fails, and the ninth.
fn mem_shelf(alloc: Global) -> Result<MemShelf, AllocError> {
    let mut shelf = MemShelf::new(alloc);
    for (place, name, bytes) in &FILES {
        shelf.add(*place, name, bytes)?;
    }
    shelf.fail(9)?;
    shelf.fail(1)?;
    Ok(shelf)
}

// The number of the first row that does not hold.
fn wrong_fetch(alloc: Global, shelf: &mut impl Shelf) -> Option<usize> {
    for (row, (place, name, max, want)) in FETCHES.iter().enumerate() {
        if !is_shown(fetched(alloc, shelf, *place, name, *max), want) {
            return Some(row);
        }
    }
    None
}

fn fetch_fails(alloc: Global, shelf: &mut MemShelf) -> bool {
    is_shown(
        fetched(alloc, shelf, Place::Parts, "3001.dat", 4),
        "Failed ",
    )
}

#[test]
fn sure_shelves_give_the_newest_file(rt: HostRuntime) -> Result<(), AllocError> {
    let mut shelf = sure_shelf(rt.alloc())?;
    let wrong = wrong_fetch(rt.alloc(), &mut shelf);
    assert!(rt; wrong.is_none(), "{wrong:?}");
    Ok(())
}

#[test]
fn listed_fetches_fail(rt: HostRuntime) -> Result<(), AllocError> {
    let alloc = rt.alloc();
    let mut shelf = mem_shelf(alloc)?;
    assert!(rt; fetch_fails(alloc, &mut shelf), "first fetch");
    let wrong = wrong_fetch(alloc, &mut shelf);
    assert!(rt; wrong.is_none(), "{wrong:?}");
    assert!(rt; fetch_fails(alloc, &mut shelf), "ninth fetch");
    Ok(())
}

// A call that is to fail and how many bytes it takes, and how three puts go, with the bytes taken.
static PUTS: [(u64, u64, &str); 9] = [
    (1, 0, "failed ok ok cde"),
    (1, 1, "failed ok ok acde"),
    (1, 2, "failed ok ok acde"),
    (2, 0, "ok ok ok abcde"),
    (3, 0, "ok ok failed ab"),
    (3, 1, "ok ok failed abc"),
    (3, 2, "ok ok failed abcd"),
    (3, 18446744073709551615, "ok ok failed abcd"),
    (4, 0, "ok ok ok abcde"),
];

fn put_word(sink: &mut impl Sink, piece: &[u8]) -> &'static str {
    match sink.put(piece) {
        Ok(()) => "ok",
        Err(PutError::Failed) => "failed",
        Err(PutError::Memory) => "memory",
    }
}

fn failing_sink(alloc: Global, call: u64, taken: u64) -> Result<MemSink, AllocError> {
    let mut sink = MemSink::new(alloc);
    sink.fail(call, 7)?;
    sink.fail(call, taken)?;
    Ok(sink)
}

fn put_thrice(alloc: Global, call: u64, taken: u64) -> Result<String, AllocError> {
    let mut sink = failing_sink(alloc, call, taken)?;
    puts_told(alloc, &mut sink)
}

fn puts_told(alloc: Global, sink: &mut MemSink) -> Result<String, AllocError> {
    let first = put_word(sink, b"ab");
    let second = put_word(sink, b"");
    let third = put_word(sink, b"cde");
    let bytes = String::from_utf8_lossy(alloc, sink.bytes())?;
    format!(in alloc; "{first} {second} {third} {bytes}")
}

#[test]
fn listed_puts_take_a_part(rt: HostRuntime) {
    let alloc = rt.alloc();
    for (call, taken, want) in &PUTS {
        assert!(rt;
            is_shown(put_thrice(alloc, *call, *taken), want),
            "put {call} {taken}"
        );
    }
}

fn sure_sink_takes_all(alloc: Global) -> bool {
    let mut sink = SureSink::new(alloc);
    sink.put(b"ab").is_ok() && sink.put(b"c").is_ok() && sink.bytes() == b"abc".as_slice()
}

#[test]
fn sure_sinks_take_all(rt: HostRuntime) {
    assert!(rt; sure_sink_takes_all(rt.alloc()));
}

// Reads or writes two bytes a call at most, and fails the call of one number.
#[derive(Drop)]
struct Slow<'a> {
    rest: &'a [u8],
    written: &'a mut Vec<u8>,
    calls: &'a mut u64,
    failing: u64,
    kind: Option<ErrorKind>,
}

// How many bytes a call moves of so many, after it is counted.
fn count_call(
    calls: &mut u64,
    failing: u64,
    kind: Option<ErrorKind>,
    len: usize,
) -> io::Result<usize>
    ensures { IfOk result (λ count. count ≤ len) }
{
    *calls = calls.saturating_add(1);
    if *calls != failing {
        return Ok(len.min(2));
    }
    match kind {
        Some(kind) => Err(io::Error::from(kind)),
        None => Ok(0),
    }
}

impl Read for Slow<'_> {
    fn read(&mut self, buf: &mut [u8]) -> io::Result<usize> {
        let len = self.rest.len().min(buf.len());
        let count = count_call(self.calls, self.failing, self.kind, len)?;
        let (now, later) = self.rest.split_at(count);
        buf[..count].copy_from_slice(now);
        self.rest = later;
        Ok(count)
    }
}

impl Write for Slow<'_> {
    fn write(&mut self, buf: &[u8]) -> io::Result<usize> {
        let count = count_call(self.calls, self.failing, self.kind, buf.len())?;
        self.written.extend_from_slice(&buf[..count])?;
        Ok(count)
    }

    fn flush(&mut self) -> io::Result<()> {
        Ok(())
    }
}

// The most bytes, the read that fails and how, and what reading gives, with the bytes and the calls.
static READS: [(u32, u64, ErrorKind, &str); 10] = [
    (5, 0, ErrorKind::Other, "Ok(()) abcde 4"),
    (6, 0, ErrorKind::Other, "Ok(()) abcde 4"),
    (4, 0, ErrorKind::Other, "Err(TooBig) abcde 3"),
    (0, 0, ErrorKind::Other, "Err(TooBig) a 1"),
    (5, 1, ErrorKind::Other, "Err(Failed(Other))  1"),
    (5, 2, ErrorKind::Other, "Err(Failed(Other)) ab 2"),
    (5, 3, ErrorKind::Other, "Err(Failed(Other)) abcd 3"),
    (5, 4, ErrorKind::Other, "Err(Failed(Other)) abcde 4"),
    (4, 3, ErrorKind::Other, "Err(Failed(Other)) abcd 3"),
    (5, 2, ErrorKind::Interrupted, "Ok(()) abcde 5"),
];

// The write that fails and how, the piece, and what writing gives, with the bytes and the calls.
static WRITES: [(u64, Option<ErrorKind>, &str, &str); 7] = [
    (0, Some(ErrorKind::Other), "abcde", "Ok(()) abcde 3"),
    (1, Some(ErrorKind::Other), "", "Ok(())  0"),
    (1, Some(ErrorKind::Other), "abcde", "Err(Failed)  1"),
    (2, Some(ErrorKind::Other), "abcde", "Err(Failed) ab 2"),
    (3, Some(ErrorKind::Other), "abcde", "Err(Failed) abcd 3"),
    (2, None, "abcde", "Err(Failed) ab 2"),
    (2, Some(ErrorKind::Interrupted), "abcde", "Ok(()) abcde 4"),
];

fn read_slowly(
    alloc: Global,
    max: u32,
    failing: u64,
    kind: ErrorKind,
) -> Result<String, AllocError> {
    let (mut into, mut written, mut calls) = (Vec::new(alloc), Vec::new(alloc), 0);
    let reader = Slow {
        rest: b"abcde",
        written: &mut written,
        calls: &mut calls,
        failing,
        kind: Some(kind),
    };
    let got = read_whole(reader, u64::from(max), &mut into);
    let bytes = String::from_utf8_lossy(alloc, into.as_slice())?;
    format!(in alloc; "{got:?} {bytes} {calls}")
}

fn write_slowly(
    alloc: Global,
    piece: &str,
    failing: u64,
    kind: Option<ErrorKind>,
) -> Result<String, AllocError> {
    let (mut written, mut calls) = (Vec::new(alloc), 0);
    let mut writer = Slow {
        rest: b"",
        written: &mut written,
        calls: &mut calls,
        failing,
        kind,
    };
    let got = write_whole(&mut writer, piece.as_bytes());
    drop(writer);
    let bytes = String::from_utf8_lossy(alloc, written.as_slice())?;
    format!(in alloc; "{got:?} {bytes} {calls}")
}

// Each read failed in turn, and one that a signal stopped.
#[test]
fn reads_fail_in_turn(rt: HostRuntime) {
    let alloc = rt.alloc();
    for (max, failing, kind, want) in &READS {
        assert!(rt;
            is_shown(read_slowly(alloc, *max, *failing, *kind), want),
            "{max} {want}"
        );
    }
}

// Each write failed in turn, one that takes nothing, and one that a signal stopped.
#[test]
fn writes_fail_in_turn(rt: HostRuntime) {
    let alloc = rt.alloc();
    for (failing, kind, piece, want) in &WRITES {
        assert!(rt;
            is_shown(write_slowly(alloc, piece, *failing, *kind), want),
            "{failing} {kind:?} {piece}"
        );
    }
}

fn path_is(alloc: Global, place: Place, want: &str) -> bool {
    match path_in(alloc, "lib", "m/n", place, "s/x.dat") {
        Ok(path) => path.as_str() == want,
        Err(_) => false,
    }
}

#[test]
fn paths_begin_with_their_folder(rt: HostRuntime) {
    let alloc = rt.alloc();
    assert!(rt; path_is(alloc, Place::Work, "s/x.dat"));
    assert!(rt; path_is(alloc, Place::Model, "m/n/s/x.dat"));
    assert!(rt; path_is(alloc, Place::Parts, "lib/parts/s/x.dat"));
    assert!(rt; path_is(alloc, Place::P, "lib/p/s/x.dat"));
}
