//! A whole run: reads all, answers, writes.
ghost use Rattle.std.specs.Prelude.{◌≡◌, ◌⊎◌, ◌++◌, true, false, IfOk, IfErr, OnOk, OnErr, IfSome, Err, ◌≢◌};
ghost use Rattle.std.specs.Prelude.{◌<◌, length, vec_len};
ghost use Rattle.std.specs.Io.KnownBytes.{Appends};
ghost use Rattle.std.specs.Str.{IsUtf8};
ghost use Rattle.ftl.specs.Answer.{ReadsDeeper};
ghost use Rattle.ftl.specs.Watched.{inner_of, has_failed};
ghost use Rattle.ftl.specs.Run.{FailsAs, AppendsBeginning, IfWritten, WritesAnswer};

use crate::answers::{answer, answer_within};
use crate::command::Command;
use crate::outcome::{Outcome, RunFault};
use crate::watched::Watched;
use fluent_syntax::parser::TooDeep;
use std::alloc::Global;
use std::io::{Read, Write};

/// How many bytes are asked of a reader at once.
const BLOCK: usize = 65_536;

/// Reads the whole input, and writes the command's text of it.
///
/// `Input`: a read failed, or the input is not UTF-8. `Memory`: a growth was refused. After both
/// nothing was written. `Output`: a write failed; what was written is a beginning of the text. For
/// an input that is not UTF-8 the result is `Input` or `Memory`, and nothing else.
pub fn run<R: Read, W: Write>(
    alloc: Global,
    command: Command,
    reader: &mut Watched<R>,
    writer: &mut Watched<W>,
) -> Result<Outcome, RunFault>
    requires reader { has_failed reader.old ≡ false }
    requires writer { has_failed writer.old ≡ false }
    ensures text { WritesAnswer command (R.remaining (inner_of reader.old)) (W.contents (inner_of writer.old))
        (W.contents (inner_of writer.new)) result }
    ensures faults { FailsAs (R.remaining (inner_of reader.old)) (has_failed reader.new)
        (has_failed writer.new) result }
    ensures unwritten { (result ≡ Err RunFault.Input) ⊎ (result ≡ Err RunFault.Memory) → writer.new ≡ writer.old }
{
    let input = read_all(alloc, reader)?;
    let (text, outcome) = answer(alloc, command, input.as_slice())?;
    write_all(writer, text.as_bytes())?;
    Ok(outcome)
}

/// What `run` does, if the placeables and argument lists of the input nest at most `nesting` deep.
///
/// `TooDeep` where they nest deeper; then nothing was written. For an input that is not UTF-8 the result is `Input` or
/// `Memory`, as of `run`. Of a text that nests deeper not even a beginning is written. The stack that reading takes is
/// bounded by `nesting`.
pub fn run_within<R: Read, W: Write>(
    alloc: Global,
    command: Command,
    nesting: usize,
    reader: &mut Watched<R>,
    writer: &mut Watched<W>,
) -> Result<Result<Outcome, RunFault>, TooDeep>
    requires reader { has_failed reader.old ≡ false }
    requires writer { has_failed writer.old ≡ false }
    ensures text { IfOk result (λ ended. WritesAnswer command (R.remaining (inner_of reader.old))
        (W.contents (inner_of writer.old)) (W.contents (inner_of writer.new)) ended) }
    ensures faults { IfOk result (λ ended. FailsAs (R.remaining (inner_of reader.old)) (has_failed reader.new)
        (has_failed writer.new) ended) }
    ensures unwritten { IfOk result (λ ended. (ended ≡ Err RunFault.Input) ⊎ (ended ≡ Err RunFault.Memory)
        → writer.new ≡ writer.old) }
    ensures deep { OnErr result (writer.new ≡ writer.old) }
    ensures deeper { OnErr result (IfSome (R.remaining (inner_of reader.old))
        (λ bytes. ReadsDeeper command bytes nesting)) }
    ensures no_text { OnErr result (IfSome (R.remaining (inner_of reader.old)) (λ bytes. ¬ (IsUtf8 bytes) → ⊥)) }
    ensures shallow { IfOk result (λ ended. IfWritten ended (IfSome (R.remaining (inner_of reader.old))
        (λ bytes. ReadsDeeper command bytes nesting → ⊥))) }
{
    let input = match read_all(alloc, reader) {
        Ok(input) => input,
        Err(fault) => return Ok(Err(fault)),
    };
    match answer_within(alloc, command, input.as_slice(), nesting)? {
        Ok((text, outcome)) => match write_all(writer, text.as_bytes()) {
            Ok(()) => Ok(Ok(outcome)),
            Err(fault) => Ok(Err(fault)),
        },
        Err(fault) => Ok(Err(fault)),
    }
}

/// All that the reader gives, up to its end.
fn read_all<R: Read>(alloc: Global, reader: &mut Watched<R>) -> Result<Vec<u8>, RunFault>
    ensures all { IfOk result (λ input. IfSome (R.remaining (inner_of reader.old)) (λ bytes. input.items ≡ bytes)) }
    ensures input { result ≡ Err RunFault.Input → has_failed reader.new ≡ true }
    ensures output { result ≢ Err RunFault.Output }
{
    let mut block = zeros(alloc, BLOCK)?;
    read_blocks(alloc, reader, block.as_mut_slice())
}

/// All that the reader gives, up to its end, by reads into the block.
fn read_blocks<R: Read>(
    alloc: Global,
    reader: &mut Watched<R>,
    block: &mut [u8],
) -> Result<Vec<u8>, RunFault>
    requires { 0 < length block.old }
    ensures all { IfOk result (λ input. IfSome (R.remaining (inner_of reader.old)) (λ bytes. input.items ≡ bytes)) }
    ensures input { result ≡ Err RunFault.Input → has_failed reader.new ≡ true }
    ensures output { result ≢ Err RunFault.Output }
{
    let mut input = Vec::new(alloc);
    loop {
        match reader.read(block) {
            None => return Err(RunFault::Input),
            Some(0) => return Ok(input),
            Some(count) => append(&mut input, &block[..count])?,
        }
    }
}

/// Writes the text, piece by piece as the writer takes it.
///
/// `Output` where a write failed.
pub fn write_all<W: Write>(writer: &mut Watched<W>, text: &[u8]) -> Result<(), RunFault>
    ensures all { OnOk result (Appends (W.contents (inner_of writer.old)) (W.contents (inner_of writer.new)) text.now) }
    ensures beginning { OnErr result
        (AppendsBeginning (W.contents (inner_of writer.old)) (W.contents (inner_of writer.new)) text.now) }
    ensures failed { IfErr result (λ fault. (fault ≡ RunFault.Output) × (has_failed writer.new ≡ true)) }
{
    let mut rest = text;
    while !rest.is_empty() {
        match writer.write(rest) {
            None => return Err(RunFault::Output),
            Some(count) => rest = &rest[count..],
        }
    }
    Ok(())
}

fn zeros(alloc: Global, size: usize) -> Result<Vec<u8>, RunFault>
    ensures len { IfOk result (λ zeros. vec_len zeros ≡ size) }
    ensures err { IfErr result (λ fault. fault ≡ RunFault.Memory) }
{
    vec![in alloc; 0u8; size].map_err(|_| RunFault::Memory)
}

fn append(input: &mut Vec<u8>, piece: &[u8]) -> Result<(), RunFault>
    ensures ok { OnOk result (input.new.items ≡ input.old.items ++ piece.now) }
    ensures err { IfErr result (λ fault. fault ≡ RunFault.Memory) }
{
    input.extend_from_slice(piece).map_err(|_| RunFault::Memory)
}
