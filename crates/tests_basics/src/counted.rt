//! Readers and writers whose calls are counted.

ghost use Rattle.std.specs.Prelude.{◌≡◌, ◌≤◌, ◌<◌, ◌+◌, ◌++◌, OnErr, IfOk, length, take};

use osb_frames::{Counted, InMemory, Sink, Source, send_all};
use std::io::{self, Read, Write};
use std::mem::size_of;
use std::process::Abort;
use std::test::Fail;

/// Gives or takes at most `most` bytes in one call, and fails at the call with the number `bad`.
#[derive(Drop)]
struct Pieces<'a> {
    rest: &'a [u8],
    most: usize,
    calls: u64,
    bad: u64,
}

impl Pieces<'_> {
    /// How many of `wanted` bytes go over in this call.
    fn step(&mut self, wanted: usize) -> io::Result<usize>
        ensures { IfOk result (λ n. n ≤ wanted) }
    {
        self.calls = self.calls.saturating_add(1);
        if self.calls == self.bad {
            return Err(io::Error::from(io::ErrorKind::TimedOut));
        }
        Ok(wanted.min(self.most))
    }
}

impl Read for Pieces<'_> {
    fn read(&mut self, buf: &mut [u8]) -> io::Result<usize> {
        let count = self.step(buf.len())?.min(self.rest.len());
        buf[..count].copy_from_slice(&self.rest[..count]);
        self.rest = &self.rest[count..];
        Ok(count)
    }
}

impl Write for Pieces<'_> {
    fn write(&mut self, buf: &[u8]) -> io::Result<usize> {
        self.step(buf.len())
    }

    fn flush(&mut self) -> io::Result<()> {
        Ok(())
    }
}

fn in_pieces(rest: &[u8], most: usize, bad: u64) -> Counted<Pieces<'_>> {
    Counted::new(Pieces {
        rest,
        most,
        calls: 0,
        bad,
    })
}

/// Reads once and writes once what came: what a caller of the traits knows of both.
fn pass_on<S: Source, W: Sink>(source: &mut S, sink: &mut W, buf: &mut [u8]) -> io::Result<usize>
    ensures read_once { S.reads source.new ≡ S.reads source.old + 1 }
    ensures written_once { W.writes sink.new ≤ W.writes sink.old + 1 }
    ensures passed { IfOk result (λ n. W.taken sink.new ≡ W.taken sink.old ++ take n buf.new) }
    ensures cause { OnErr result
        (S.failures source.old + W.failures sink.old < S.failures source.new + W.failures sink.new) }
{
    let count = source.read(buf)?;
    sink.write(&buf[..count])
}

/// Whether the call failed as [`Pieces`] fails.
fn has_failed(call: io::Result<usize>) -> bool {
    match call {
        Ok(_) => false,
        Err(error) => error.kind() == io::ErrorKind::TimedOut,
    }
}

/// Whether the next read gives these bytes.
fn gives<S: Source>(source: &mut S, bytes: &[u8]) -> bool {
    let mut buf = [0; 8];
    matches!(source.read(&mut buf), Ok(count) if buf.get(..count) == Some(bytes))
}

#[test]
fn gives_what_the_reader_gives(rt: HostRuntime) {
    let mut source = in_pieces(b"catalog", 3, 0);
    for bytes in [b"cat".as_slice(), b"alo", b"g", b"", b""] {
        assert!(rt; gives(&mut source, bytes));
    }
}

/// Checks that of three reads the one with the number `bad` fails.
fn fails_to_read_at(rt: &impl Abort, bad: u64) {
    let mut source = in_pieces(b"catalog", 2, bad);
    let mut buf = [0; 2];
    for call in 1..4 {
        assert!(rt;
            has_failed(source.read(&mut buf)) == (call == bad),
            "call {call} of bad {bad}"
        );
    }
}

#[test]
fn hands_a_failed_read_on(rt: HostRuntime) {
    for bad in 1..4 {
        fails_to_read_at(&rt, bad);
    }
}

#[test]
fn takes_what_the_writer_takes(rt: HostRuntime) -> Result<(), Fail> {
    for (most, want) in [(0, 0), (1, 1), (6, 6), (7, 7), (8, 7)] {
        assert!(rt;
            in_pieces(b"", most, 0).write(b"catalog")? == want,
            "{most}"
        );
    }
    Ok(())
}

/// Checks that of three writes the one with the number `bad` fails.
fn fails_to_write_at(rt: &impl Abort, bad: u64) {
    let mut sink = in_pieces(b"", 2, bad);
    for call in 1..4 {
        assert!(rt;
            has_failed(sink.write(b"catalog")) == (call == bad),
            "call {call} of bad {bad}"
        );
    }
}

#[test]
fn hands_a_failed_write_on(rt: HostRuntime) {
    for bad in 1..4 {
        fails_to_write_at(&rt, bad);
    }
}

/// How many bytes go over in three calls, in pieces of up to four.
fn pass_on_thrice<S: Source, W: Sink>(source: &mut S, sink: &mut W) -> io::Result<[usize; 3]> {
    let mut buf = [0; 4];
    let first = pass_on(source, sink, &mut buf)?;
    let second = pass_on(source, sink, &mut buf)?;
    Ok([first, second, pass_on(source, sink, &mut buf)?])
}

#[test]
fn passes_bytes_on(rt: HostRuntime) -> Result<(), Fail> {
    let mut source = Counted::new(b"catalog".as_slice());
    let mut sink = Counted::new(Vec::new(rt.alloc()));
    let passed = pass_on_thrice(&mut source, &mut sink);
    let taken = sink.into_inner();
    let is_whole = taken.as_slice() == b"catalog".as_slice();
    drop(taken);
    assert!(rt; passed? == [4, 3, 0]);
    assert!(rt; is_whole && source.into_inner().is_empty());
    Ok(())
}

/// How many bytes go over in a call, which call fails, and how the sending of `catalog` ends.
type Sending = (usize, u64, Result<(), usize>);

const SENDINGS: [Sending; 6] = [
    (3, 0, Ok(())),
    (7, 0, Ok(())),
    (3, 1, Err(0)),
    (3, 2, Err(3)),
    (3, 3, Err(6)),
    (0, 0, Err(0)),
];

fn sent(bytes: &[u8], most: usize, bad: u64) -> Result<(), usize> {
    let mut sink = in_pieces(b"", most, bad);
    send_all(&mut sink, bytes)
}

fn sends_each(rt: &impl Abort, cases: &[Sending]) {
    for (most, bad, want) in cases {
        assert!(rt;
            sent(b"catalog", *most, *bad) == *want,
            "{most} at a time, bad {bad}"
        );
    }
}

#[test]
fn sends_all(rt: HostRuntime) {
    sends_each(&rt, &SENDINGS);
    assert!(rt; sent(b"", 0, 1) == Ok(()));
}

/// What has room is written whole.
fn write_short<W: Sink>(sink: &mut W, bytes: &[u8]) -> usize
    requires some { 0 < length bytes.now }
    requires fits { length bytes.now ≤ W.room sink.old }
    ensures { result ≡ length bytes.now }
{
    sink.write(bytes).unwrap()
}

#[test]
fn what_has_room_is_written_whole(rt: HostRuntime) -> Result<(), Fail> {
    let mut kept = InMemory::new(Vec::new(rt.alloc()));
    kept.reserve(7)?;
    let written = write_short(&mut kept, b"catalog");
    assert!(rt; written == 7 && kept.into_bytes().as_slice() == b"catalog".as_slice());
    Ok(())
}

#[test]
fn counts_take_no_bytes(rt: HostRuntime) {
    assert_eq!(rt; size_of::<Counted<u64>>(), size_of::<u64>());
}
