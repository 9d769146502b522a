//! The bodies of the frames that a reader gives.
ghost use Rattle.std.specs.Prelude.{◌≡◌, ◌<◌, ◌≤◌, ◌++◌, length, true, drop, slice_range, vec_len, IfOk, IfErr, OnOk};
ghost use Rattle.std.specs.Prelude.{Err};
ghost use Rattle.std.specs.Io.KnownBytes.{Keeps, prepend_known};
ghost use Rattle.ftl.specs.Watched.{inner_of, has_failed};
ghost use Rattle.ftl_lsp.specs.Inbox.{EndsAs, Stops, TakesFrame};

use crate::sessions::endings::Ending;
use crate::sessions::frames::{Framing, first_frame};
use ftl::Watched;
use std::alloc::Global;
use std::io::Read;

/// The body of the next frame. `pending` holds the bytes that were read and not taken yet; `block` is what the reader
/// fills.
///
/// `Closed` where nothing is left, `Cut` where less than a frame is left, `Refused` where what is left begins with no
/// frame. `Input`: a read failed. `Memory`: a growth was refused.
pub fn next_body<R: Read>(
    alloc: Global,
    reader: &mut Watched<R>,
    pending: &mut Vec<u8>,
    block: &mut [u8],
) -> Result<Vec<u8>, Ending>
    requires { 0 < length block.old }
    ensures frame { let old = prepend_known pending.old.items (R.remaining (inner_of reader.old)) in
        let new = prepend_known pending.new.items (R.remaining (inner_of reader.new)) in
        IfOk result (λ body. TakesFrame old new body.items) }
    ensures ends { let left = prepend_known pending.old.items (R.remaining (inner_of reader.old)) in
        IfErr result (EndsAs left) }
    ensures input { result ≡ Err Ending.Input → has_failed reader.new ≡ true }
{
    loop {
        match first_frame(pending.as_slice()) {
            Framing::Frame { start, end } => {
                let body = take_body(alloc, pending, start, end)?;
                return Ok(body);
            }
            Framing::Refused(fault) => return Err(Ending::Refused(fault)),
            Framing::Partial => read_more(reader, pending, block)?,
        }
    }
}

/// Takes the bytes up to `end` off the front, and gives those from `start` on.
fn take_body(
    alloc: Global,
    pending: &mut Vec<u8>,
    start: usize,
    end: usize,
) -> Result<Vec<u8>, Ending>
    requires ordered { start ≤ end }
    requires within { end ≤ vec_len pending.old }
    ensures body { IfOk result (λ body. body.items ≡ slice_range pending.old.items start end) }
    ensures rest { OnOk result (pending.new.items ≡ drop end pending.old.items) }
    ensures err { IfErr result (λ ending. ending ≡ Ending.Memory) }
{
    let body = copy_of(alloc, &pending.as_slice()[start..end])?;
    let (_, rest) = pending.as_slice().split_at(end);
    let rest = copy_of(alloc, rest)?;
    *pending = rest;
    Ok(body)
}

fn copy_of(alloc: Global, bytes: &[u8]) -> Result<Vec<u8>, Ending>
    ensures same { IfOk result (λ copy. copy.items ≡ bytes.now) }
    ensures err { IfErr result (λ ending. ending ≡ Ending.Memory) }
{
    Vec::from_slice(alloc, bytes).map_err(|_| Ending::Memory)
}

/// Reads once, and adds what came.
fn read_more<R: Read>(
    reader: &mut Watched<R>,
    pending: &mut Vec<u8>,
    block: &mut [u8],
) -> Result<(), Ending>
    requires { 0 < length block.old }
    ensures same { let old = prepend_known pending.old.items (R.remaining (inner_of reader.old)) in
        let new = prepend_known pending.new.items (R.remaining (inner_of reader.new)) in
        OnOk result (Keeps old new) }
    ensures more { OnOk result (vec_len pending.old < vec_len pending.new) }
    ensures ends { let left = prepend_known pending.old.items (R.remaining (inner_of reader.old)) in
        IfErr result (Stops pending.old.items left) }
    ensures input { result ≡ Err Ending.Input → has_failed reader.new ≡ true }
{
    match reader.read(block) {
        None => Err(Ending::Input),
        Some(0) if pending.is_empty() => Err(Ending::Closed),
        Some(0) => Err(Ending::Cut),
        Some(count) => pending
            .extend_from_slice(&block[..count])
            .map_err(|_| Ending::Memory),
    }
}
