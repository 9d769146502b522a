//! A command's text.
ghost use Rattle.std.specs.Prelude.{◌≡◌, ◌≢◌, ◌↔◌, ◌⊎◌, ◌<◌, length, Err, IfOk};
ghost use Rattle.std.specs.Str.{IsUtf8};
ghost use Rattle.ftl.specs.Answer.{IsAnswer, ReadsDeeper};
ghost use Rattle.ftl.specs.FromJson.{IsTextOf};
ghost use Rattle.fluent_syntax_c.specs.Answer.{IsCommandAnswer, IsNoTree, SpellsNone, refusal_of};
ghost use Rattle.fluent_syntax_c.specs.Arguments.{IsNoCommand, from_json_number};
ghost use Rattle.fluent_syntax_c.specs.Depth.{CommandReadsDeeper};
ghost use Rattle.fluent_syntax_c.specs.Output.{LeavesOutput};
ghost use Rattle.fluent_syntax_c.specs.Status.{EndsAs};

use crate::arguments::{CommandKind, command_kind_of};
use crate::outputs::give;
use crate::status::Refusal;
use crate::texts::text_of;
use fluent_syntax::parser::TooDeep;
use ftl::{Command, JsonFault, Outcome, RunFault, answer_within, text_of_json};
use std::alloc::Global;

/// Writes the command's text of the input to the front of `out`, and the number of its bytes to `needed`.
///
/// Returns 0, or 1 where the input has syntax errors. Where it returns 5 the text has more bytes than `out`: `needed`
/// says how many, and `out` is as it was. Otherwise `needed` is 0 and `out` as it was: 2 where no command has the
/// number, 3 where the input is not UTF-8, 4 where a growth was refused, 6 where the input's placeables and argument
/// lists nest more than `nesting` deep, or, of JSON, its arrays and objects more than 127; 7 where the input is no
/// JSON, or JSON that spells no tree.
#[unsafe(no_mangle)]
pub extern "C" fn ftl_answer(
    alloc: Global,
    command: u32,
    nesting: usize,
    input: &[u8],
    out: &mut [u8],
    needed: &mut usize,
) -> u32
    ensures leaves { EndsAs result (LeavesOutput (IsCommandAnswer command input.now) out.old out.new needed.new) }
    ensures argument { (result ≡ 2) ↔ IsNoCommand command }
    ensures input { ¬ (IsNoCommand command) → ((result ≡ 3) ↔ ¬ (IsUtf8 input.now)) }
    ensures deep { result ≡ 6 → command ≢ from_json_number → nesting < length input.now }
    ensures deeper { result ≡ 6 → command ≢ from_json_number → CommandReadsDeeper command input.now nesting }
    ensures shallow { CommandReadsDeeper command input.now nesting →
        (result ≡ 3) ⊎ (result ≡ 4) ⊎ (result ≡ 6) }
    ensures tree { result ≡ 7 → IsNoTree command input.now }
    ensures json { result ≡ 6 → command ≡ from_json_number → SpellsNone input.now }
{
    give(command_bytes(alloc, command, nesting, input), out, needed)
}

/// The bytes of the command's text.
fn command_bytes(
    alloc: Global,
    command: u32,
    nesting: usize,
    input: &[u8],
) -> Result<(Vec<u8>, Outcome), Refusal>
    ensures text { IfOk result (λ answer. IsCommandAnswer command input.now answer.0.items answer.1) }
    ensures argument { (result ≡ Err Refusal.Argument) ↔ IsNoCommand command }
    ensures input { ¬ (IsNoCommand command) → ((result ≡ Err Refusal.Input) ↔ ¬ (IsUtf8 input.now)) }
    ensures deep { result ≡ Err Refusal.Depth → command ≢ from_json_number → nesting < length input.now }
    ensures deeper { result ≡ Err Refusal.Depth → command ≢ from_json_number →
        CommandReadsDeeper command input.now nesting }
    ensures shallow { IfOk result (λ answer. CommandReadsDeeper command input.now nesting → ⊥) }
    ensures tree { result ≡ Err Refusal.Tree → IsNoTree command input.now }
    ensures json { result ≡ Err Refusal.Depth → command ≡ from_json_number → SpellsNone input.now }
{
    match command_kind_of(command) {
        Some(CommandKind::Answer(command)) => answer_bytes(alloc, command, nesting, input),
        Some(CommandKind::FromJson) => from_json_bytes(alloc, input),
        None => Err(Refusal::Argument),
    }
}

/// The bytes of what the command writes for the input.
fn answer_bytes(
    alloc: Global,
    command: Command,
    nesting: usize,
    input: &[u8],
) -> Result<(Vec<u8>, Outcome), Refusal>
    ensures text { IfOk result (λ answer. IsAnswer command input.now answer.0.items answer.1) }
    ensures input { (result ≡ Err Refusal.Input) ↔ ¬ (IsUtf8 input.now) }
    ensures deep { result ≡ Err Refusal.Depth → nesting < length input.now }
    ensures deeper { result ≡ Err Refusal.Depth → ReadsDeeper command input.now nesting }
    ensures shallow { IfOk result (λ answer. ReadsDeeper command input.now nesting → ⊥) }
    ensures argument { result ≢ Err Refusal.Argument }
    ensures tree { result ≢ Err Refusal.Tree }
{
    match answer_within(alloc, command, input, nesting) {
        Ok(Ok((text, outcome))) => Ok((text.into_bytes(), outcome)),
        Ok(Err(RunFault::Input)) => Err(Refusal::Input),
        Ok(Err(RunFault::Memory)) => Err(Refusal::Memory),
        Ok(Err(RunFault::Output)) => unreachable!(),
        Err(TooDeep) => Err(Refusal::Depth),
    }
}

/// The bytes of the text of the tree that the input spells as JSON.
fn from_json_bytes(alloc: Global, input: &[u8]) -> Result<(Vec<u8>, Outcome), Refusal>
    ensures text { IfOk result (λ answer. IsTextOf input.now answer.0.items × (answer.1 ≡ Outcome.Clean)) }
    ensures input { (result ≡ Err Refusal.Input) ↔ ¬ (IsUtf8 input.now) }
    ensures argument { result ≢ Err Refusal.Argument }
    ensures tree { result ≡ Err Refusal.Tree → SpellsNone input.now }
    ensures json { result ≡ Err Refusal.Depth → SpellsNone input.now }
{
    let json = text_of(input)?;
    match text_of_json(alloc, json) {
        Ok(text) => Ok((text.into_bytes(), Outcome::Clean)),
        Err(fault) => Err(refusal_of(fault)),
    }
}

/// Why there is no text of a tree.
pub(crate) fn refusal_of(fault: JsonFault) -> Refusal
    ensures { result ≡ refusal_of fault }
{
    match fault {
        JsonFault::Syntax(..) | JsonFault::Shape => Refusal::Tree,
        JsonFault::TooDeep => Refusal::Depth,
        JsonFault::Memory => Refusal::Memory,
    }
}
