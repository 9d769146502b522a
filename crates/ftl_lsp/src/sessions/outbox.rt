//! Messages as frames, onto a writer.
ghost use Rattle.std.specs.Prelude.{◌≡◌, ◌⊎◌, IfOk, OnOk, IfErr, Err, Some};
ghost use Rattle.std.specs.String.{string_bytes};
ghost use Rattle.serde_json.specs.View.{view};
ghost use Rattle.ftl_lsp.specs.Outbox.{IsFrameOf, Sends, frame_header};

use crate::sessions::endings::Ending;
use serde_json::Value;
use std::alloc::{AllocError, Global};
use std::io::Write;

/// Writes the message as a frame.
///
/// `Memory`: a growth was refused, and nothing was written. `Output`: a write failed.
pub fn send<W: Write>(alloc: Global, writer: &mut W, message: &Value) -> Result<(), Ending>
    ensures sent { OnOk result (Sends (W.contents writer.old) (W.contents writer.new) (Some (view message.now))) }
    ensures unwritten { result ≡ Err Ending.Memory → writer.new ≡ writer.old }
    ensures fault { IfErr result (λ ending. (ending ≡ Ending.Memory) ⊎ (ending ≡ Ending.Output)) }
{
    let frame = frame_of(alloc, message).map_err(|_| Ending::Memory)?;
    writer
        .write_all(frame.as_bytes())
        .map_err(|_| Ending::Output)
}

/// The frame of a message.
fn frame_of(alloc: Global, message: &Value) -> Result<String, AllocError>
    ensures { IfOk result (λ frame. IsFrameOf (view message.now) (string_bytes frame)) }
{
    let body = message.to_string(alloc)?;
    let mut frame = header_of(alloc, body.len())?;
    frame.push_str(body.as_str())?;
    Ok(frame)
}

/// The header of a body of so many bytes, with the empty line after it.
fn header_of(alloc: Global, length: usize) -> Result<String, AllocError>
    ensures { IfOk result (λ header. string_bytes header ≡ frame_header length) }
{
    format!(in alloc; "Content-Length: {length}\r\n\r\n")
}
