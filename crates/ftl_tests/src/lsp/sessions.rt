//! Frames, and sessions of the language server whose input comes byte by byte, or whose writer fails.

use crate::engine::ends::{Drip, Narrow};
use fluent_syntax_tests::alike::assert_holds;
use ftl::Watched;
use ftl_files::Memory;
use ftl_lsp::{BODY_LIMIT, Ending, FrameFault, Framing, first_frame, serve};
use std::alloc::Global;
use std::io::Read;
use std::test::Fail;

/// Bytes, and what they begin with.
type Frame = (&'static str, Framing);

const FRAMES: [Frame; 4] = [
    (
        "A: b\r\ncontent-LENGTH:\t02 \r\n\r\n{}Content-Le",
        Framing::Frame { start: 29, end: 31 },
    ),
    ("Content-Length: 2\r\n\r\n{", Framing::Partial),
    (
        "Content-Length: +2\r\n\r\n{}",
        Framing::Refused(FrameFault::NoLength),
    ),
    (
        "Content-Length: 67108865\r\n\r\n",
        Framing::Refused(FrameFault::LongBody),
    ),
];

fn assert_framed(alloc: Global, row: &Frame) -> Result<(), Fail> {
    let (bytes, found) = row;
    assert_holds(alloc, *bytes, first_frame(bytes.as_bytes()) == *found)
}

#[test]
fn frames_at_the_front(rt: HostRuntime) -> Result<(), Fail> {
    for row in &FRAMES {
        assert_framed(rt.alloc(), row)?;
    }
    assert_holds(rt.alloc(), "the limit", BODY_LIMIT == 64 * 1024 * 1024)
}

const SHUTDOWN: &str = "{\"jsonrpc\":\"2.0\",\"id\":1,\"method\":\"shutdown\"}";

const EXIT: &str = "{\"jsonrpc\":\"2.0\",\"method\":\"exit\"}";

const NOT_INITIALIZED: &str =
    "{\"error\":{\"code\":-32002,\"message\":\"the server is not initialized\"},\"id\":1,\"jsonrpc\":\"2.0\"}";

const NO_JSON: &str =
    "{\"error\":{\"code\":-32700,\"message\":\"the message is no JSON text\"},\"id\":null,\"jsonrpc\":\"2.0\"}";

fn push_frame(alloc: Global, frames: &mut String, body: &str) -> Result<(), Fail> {
    let header = format!(in alloc; "Content-Length: {}\r\n\r\n", body.len())?;
    frames.push_str(header.as_str())?;
    frames.push_str(body)?;
    Ok(())
}

/// The frames of the bodies, one after another.
fn frames_of(alloc: Global, bodies: &[&str]) -> Result<String, Fail> {
    let mut frames = String::new(alloc);
    for body in bodies {
        push_frame(alloc, &mut frames, *body)?;
    }
    Ok(frames)
}

/// Whether a session over the reader ends so, with these bytes written.
fn serves<R: Read + Drop>(alloc: Global, reader: R, ending: Ending, output: &[u8]) -> bool {
    let mut writer = Vec::new(alloc);
    let files = Memory::new(alloc);
    let ended = serve(alloc, &mut Watched::new(reader), &mut writer, &files);
    ended == ending && writer.as_slice() == output
}

/// Bodies of messages that come before `initialize`, and of those that are sent for them.
const SENT: [&str; 3] = [SHUTDOWN, "{", EXIT];

const ANSWERED: [&str; 2] = [NOT_INITIALIZED, NO_JSON];

#[test]
fn a_session_joined_and_byte_by_byte(rt: HostRuntime) -> Result<(), Fail> {
    let alloc = rt.alloc();
    let input = frames_of(alloc, &SENT)?;
    let output = frames_of(alloc, &ANSWERED)?;
    let joined = serves(alloc, input.as_bytes(), Ending::Left, output.as_bytes());
    let drip = Drip::whole(input.as_bytes());
    let by_byte = serves(alloc, drip, Ending::Left, output.as_bytes());
    assert_holds(alloc, "a session", joined && by_byte)
}

#[test]
fn a_writer_that_fails(rt: HostRuntime) -> Result<(), Fail> {
    let input = frames_of(rt.alloc(), &[SHUTDOWN])?;
    let mut reader = Watched::new(input.as_bytes());
    let mut writer = Narrow::closed(rt.alloc());
    let files = Memory::new(rt.alloc());
    let ended = serve(rt.alloc(), &mut reader, &mut writer, &files);
    assert_holds(rt.alloc(), "a closed writer", ended == Ending::Output)
}
