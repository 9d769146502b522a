//! Readers and writers that fail, and how a run meets them.

use fluent_syntax::parser::TooDeep;
use fluent_syntax_tests::alike::{assert_holds, assert_same};
use ftl::{Command, Outcome, RunFault, Watched, run, run_within};
use std::alloc::Global;
use std::io::{self, Read, Write};
use std::test::Fail;

/// Gives one byte a read, and fails once it was read so often.
#[derive(Drop)]
pub struct Drip<'a> {
    bytes: &'a [u8],
    reads: usize,
}

impl<'a> Drip<'a> {
    /// One that never fails.
    pub(crate) fn whole(bytes: &'a [u8]) -> Self {
        Drip {
            bytes,
            reads: usize::MAX,
        }
    }
}

impl Read for Drip<'_> {
    fn read(&mut self, buf: &mut [u8]) -> io::Result<usize> {
        if self.reads == 0 {
            return Err(io::Error::from(io::ErrorKind::BrokenPipe));
        }
        self.reads -= 1;
        if buf.is_empty() || self.bytes.is_empty() {
            return Ok(0);
        }
        buf[0] = self.bytes[0];
        self.bytes = &self.bytes[1..];
        Ok(1)
    }
}

/// Takes at most `step` bytes a call and `room` bytes in all; then it fails, or takes none.
#[derive(Drop)]
pub struct Narrow {
    taken: Vec<u8>,
    step: usize,
    room: usize,
    fails: bool,
}

impl Narrow {
    /// One that takes all.
    pub(crate) fn wide(alloc: Global) -> Self {
        Narrow {
            taken: Vec::new(alloc),
            step: usize::MAX,
            room: usize::MAX,
            fails: false,
        }
    }

    /// One that fails at once.
    pub(crate) fn closed(alloc: Global) -> Self {
        Narrow {
            taken: Vec::new(alloc),
            step: usize::MAX,
            room: 0,
            fails: true,
        }
    }

    /// What it took.
    pub(crate) fn into_taken(self) -> Vec<u8> {
        self.taken
    }
}

impl Write for Narrow {
    fn write(&mut self, buf: &[u8]) -> io::Result<usize> {
        if self.room == 0 && self.fails {
            return Err(io::Error::from(io::ErrorKind::BrokenPipe));
        }
        let count = buf.len().min(self.step).min(self.room);
        if self.taken.extend_from_slice(&buf[..count]).is_err() {
            return Err(io::Error::from(io::ErrorKind::OutOfMemory));
        }
        self.room -= count;
        Ok(count)
    }

    fn flush(&mut self) -> io::Result<()> {
        Ok(())
    }
}

/// How the command ends over a reader and a writer, and what was written.
fn end_of_run(
    alloc: Global,
    command: Command,
    reader: Drip<'_>,
    writer: Narrow,
) -> (Result<Outcome, RunFault>, Vec<u8>) {
    let mut reader = Watched::new(reader);
    let mut writer = Watched::new(writer);
    let ended = run(alloc, command, &mut reader, &mut writer);
    (ended, writer.into_inner().into_taken())
}

/// Whether the command ends so, and has written just these bytes.
pub(crate) fn ends_so(
    alloc: Global,
    command: Command,
    reader: Drip<'_>,
    writer: Narrow,
    end: Result<Outcome, RunFault>,
    bytes: &[u8],
) -> bool {
    let (ended, written) = end_of_run(alloc, command, reader, writer);
    ended == end && written.as_slice() == bytes
}

/// How the command ends within a bound on nesting over a whole input, and what was written.
pub(crate) fn end_within(
    alloc: Global,
    command: Command,
    nesting: usize,
    input: &str,
) -> (Result<Result<Outcome, RunFault>, TooDeep>, Vec<u8>) {
    let mut reader = Watched::new(Drip::whole(input.as_bytes()));
    let mut writer = Watched::new(Narrow::wide(alloc));
    let ended = run_within(alloc, command, nesting, &mut reader, &mut writer);
    (ended, writer.into_inner().into_taken())
}

const INPUT: &str = "\nkey1 = Value 1\n\ng@Rb@ge = #2y ds\n\nkey2 = Value 2\n\n";

const OUTPUT: &str = "key1 = Value 1\nkey2 = Value 2\n";

fn assert_fails_after(alloc: Global, reads: usize) -> Result<(), Fail> {
    let reader = Drip {
        bytes: INPUT.as_bytes(),
        reads,
    };
    let writer = Narrow::wide(alloc);
    let end = Err(RunFault::Input);
    let is_so = ends_so(alloc, Command::Format, reader, writer, end, &[]);
    assert_holds(alloc, "a failing read", is_so)
}

#[test]
fn a_failing_read_writes_nothing(rt: HostRuntime) -> Result<(), Fail> {
    for reads in 0..INPUT.len() + 1 {
        assert_fails_after(rt.alloc(), reads)?;
    }
    Ok(())
}

/// Fails where formatting the input ends otherwise, or has written other bytes.
fn assert_formatted(
    alloc: Global,
    writer: Narrow,
    end: Result<Outcome, RunFault>,
    bytes: &[u8],
) -> Result<(), Fail> {
    let reader = Drip::whole(INPUT.as_bytes());
    let (ended, written) = end_of_run(alloc, Command::Format, reader, writer);
    assert_same(alloc, "the end", &ended, &end)?;
    assert_holds(alloc, "the bytes", written.as_slice() == bytes)
}

/// Formats the input onto a writer that takes so many bytes a call, and so many in all.
fn assert_leaves_a_beginning(
    alloc: Global,
    step: usize,
    room: usize,
    fails: bool,
) -> Result<(), Fail> {
    let writer = Narrow {
        taken: Vec::new(alloc),
        step,
        room,
        fails,
    };
    let room = room.min(OUTPUT.len());
    let beginning = &OUTPUT.as_bytes()[..room];
    assert_formatted(alloc, writer, Err(RunFault::Output), beginning)
}

#[test]
fn a_failing_write_leaves_a_beginning(rt: HostRuntime) -> Result<(), Fail> {
    for room in 0..OUTPUT.len() {
        assert_leaves_a_beginning(rt.alloc(), 1, room, false)?;
        assert_leaves_a_beginning(rt.alloc(), 1, room, true)?;
        assert_leaves_a_beginning(rt.alloc(), usize::MAX, room, false)?;
        assert_leaves_a_beginning(rt.alloc(), usize::MAX, room, true)?;
    }
    Ok(())
}

#[test]
fn a_writer_of_one_byte_a_call_gets_all(rt: HostRuntime) -> Result<(), Fail> {
    let writer = Narrow {
        taken: Vec::new(rt.alloc()),
        step: 1,
        room: usize::MAX,
        fails: true,
    };
    let end = Ok(Outcome::SyntaxErrors);
    assert_formatted(rt.alloc(), writer, end, OUTPUT.as_bytes())
}

/// Whether bytes that are no text are reported as such, with nothing written and without a failure of the reader or
/// writer.
fn is_no_text(alloc: Global, bytes: &[u8]) -> bool {
    let mut reader = Watched::new(Drip::whole(bytes));
    let mut writer = Watched::new(Narrow::wide(alloc));
    let ended = run(alloc, Command::Format, &mut reader, &mut writer);
    let has_failed = reader.failed() || writer.failed();
    ended == Err(RunFault::Input) && !has_failed && writer.into_inner().into_taken().is_empty()
}

#[test]
fn bytes_that_are_no_text(rt: HostRuntime) -> Result<(), Fail> {
    assert_holds(rt.alloc(), "one byte", is_no_text(rt.alloc(), &[255]))
}
