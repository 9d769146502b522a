//! A whole session: reads messages, answers them, and ends.
ghost use Rattle.std.specs.Prelude.{◌≡◌, ◌<◌, length, true, Err, IfErr, OnOk};
ghost use Rattle.std.specs.Io.KnownBytes.{prepend_known};
ghost use Rattle.ftl.specs.Watched.{has_failed, inner_of};
ghost use Rattle.ftl_lsp.specs.Served.{Ends, GoesOn, IsUnsent, SendsAnswer, Stops, TakesStep};
ghost use Rattle.ftl_lsp.specs.Sessions.{session_of};

pub mod breaks;
pub mod endings;
pub mod frames;
pub mod header_fields;
pub mod inbox;
pub mod messages;
pub mod methods;
pub mod notices;
pub mod notifications;
pub mod outbox;
pub mod params;
pub mod phases;
pub mod replies;
pub mod server;
pub mod unasked;

use crate::sessions::endings::Ending;
use crate::sessions::inbox::next_body;
use crate::sessions::outbox::send;
use crate::sessions::server::Server;
use ftl::Watched;
use ftl_files::Folders;
use std::alloc::{AllocError, Global};
use std::io::{Read, Write};

/// How many bytes are asked of a reader at once.
const BLOCK: usize = 16_384;

/// Answers the messages that the reader gives on the writer, until the session ends, and says how it ended. Of the
/// files it reads those below the folders that the editor names.
pub fn serve<R: Read, W: Write, F: Folders>(
    alloc: Global,
    reader: &mut Watched<R>,
    writer: &mut W,
    files: &F,
) -> Ending
    ensures ends { Ends (R.remaining (inner_of reader.old)) (W.contents writer.old) result (W.contents writer.new) }
    ensures input { result ≡ Ending.Input → has_failed reader.new ≡ true }
{
    let Ok(mut block) = vec![in alloc; 0u8; BLOCK] else {
        return Ending::Memory;
    };
    let mut pending = Vec::new(alloc);
    let mut server = Server::new(alloc);
    for _ in 0..u64::MAX {
        let block = block.as_mut_slice();
        let went_on = go_on(
            alloc,
            &mut server,
            reader,
            &mut pending,
            block,
            writer,
            files,
        );
        if let Err(ending) = went_on {
            return ending;
        }
        if let Some(ending) = server.ending() {
            return ending;
        }
    }
    // more messages than can be counted are not read
    Ending::Memory
}

/// Shows a notice, if there is one. Else publishes the diagnostics of a document again, if one is stale and no message
/// waits. Else takes the next message. The endings are those of `answer_next`.
fn go_on<R: Read, W: Write, F: Folders>(
    alloc: Global,
    server: &mut Server,
    reader: &mut Watched<R>,
    pending: &mut Vec<u8>,
    block: &mut [u8],
    writer: &mut W,
    files: &F,
) -> Result<(), Ending>
    requires { 0 < length block.old }
    ensures step { let left = prepend_known pending.old.items (R.remaining (inner_of reader.old)) in
        let after = prepend_known pending.new.items (R.remaining (inner_of reader.new)) in
        OnOk result (GoesOn (session_of server.old) (session_of server.new) left after
        (W.contents writer.old) (W.contents writer.new)) }
    ensures stops { let left = prepend_known pending.old.items (R.remaining (inner_of reader.old)) in
        IfErr result (λ ending. Stops (session_of server.old) left
        (W.contents writer.old) ending (W.contents writer.new)) }
    ensures input { result ≡ Err Ending.Input → has_failed reader.new ≡ true }
{
    match server.next_unasked(pending.is_empty()) {
        Ok(Some(value)) => send(alloc, writer, &value),
        Ok(None) => answer_next(alloc, server, reader, pending, block, writer, files),
        Err(AllocError) => Err(Ending::Memory),
    }
}

/// Takes the next message, and sends what is to be sent for it. The endings are those of `next_body` and of `answer`.
fn answer_next<R: Read, W: Write, F: Folders>(
    alloc: Global,
    server: &mut Server,
    reader: &mut Watched<R>,
    pending: &mut Vec<u8>,
    block: &mut [u8],
    writer: &mut W,
    files: &F,
) -> Result<(), Ending>
    requires { 0 < length block.old }
    ensures step { let left = prepend_known pending.old.items (R.remaining (inner_of reader.old)) in
        let after = prepend_known pending.new.items (R.remaining (inner_of reader.new)) in
        OnOk result (TakesStep (session_of server.old) (session_of server.new) left after
        (W.contents writer.old) (W.contents writer.new)) }
    ensures stops { let left = prepend_known pending.old.items (R.remaining (inner_of reader.old)) in
        IfErr result (λ ending. Stops (session_of server.old) left
        (W.contents writer.old) ending (W.contents writer.new)) }
    ensures input { result ≡ Err Ending.Input → has_failed reader.new ≡ true }
{
    match next_body(alloc, reader, pending, block) {
        Ok(body) => answer(alloc, server, body.as_slice(), writer, files),
        Err(ending) => Err(ending),
    }
}

/// Takes the body of a message, and sends what is to be sent for it.
///
/// `Memory`: a growth was refused, and nothing was sent. `Output`: what was to be sent could not be written.
fn answer<W: Write, F: Folders>(
    alloc: Global,
    server: &mut Server,
    body: &[u8],
    writer: &mut W,
    files: &F,
) -> Result<(), Ending>
    ensures sent { OnOk result (SendsAnswer (session_of server.old) body.now (session_of server.new)
        (W.contents writer.old) (W.contents writer.new)) }
    ensures unsent { IfErr result (λ ending. IsUnsent (session_of server.old) body.now
        (W.contents writer.old) ending (W.contents writer.new)) }
{
    match server.take(body, files) {
        Ok(Some(reply)) => send(alloc, writer, &reply),
        Ok(None) => Ok(()),
        Err(AllocError) => Err(Ending::Memory),
    }
}
