//! What is read of an input for rows.
ghost use Rattle.std.specs.Prelude.{◌≡◌, ◌≢◌, ◌↔◌, ◌⊎◌, ◌+◌, ◌<◌, ◌≤◌, ◌^◌, List, length, map, All};
ghost use Rattle.std.specs.Prelude.{Err, IfErr, IfOk, Some};
ghost use Rattle.std.specs.Str.{IsUtf8};
ghost use Rattle.fluent_syntax_grammar.specs.Nesting.{NestsDeeper};
ghost use Rattle.fluent_syntax_grammar.specs.Tiling.{Fault};
ghost use Rattle.fluent_syntax_parser.specs.Faults.{fault_of};
ghost use Rattle.fluent_syntax_parser.specs.Parts.{ResourceParts};
ghost use Rattle.ftl.specs.Answer.{outcome_with};
ghost use Rattle.fluent_syntax_c.specs.Arguments.{IsNoEdition};
ghost use Rattle.fluent_syntax_c.specs.Depth.{EditionReadsDeeper};
ghost use Rattle.fluent_syntax_c.specs.Reading.{IsEditionReading, IsReading};

use crate::arguments::edition_of;
use crate::status::Refusal;
use crate::texts::text_of;
use fluent_syntax::ast::Resource;
use fluent_syntax::parser::{Edition, ParserError, recovered};
use fluent_syntax::spans::{Span, parse_spans_within};
use ftl::Outcome;
use std::alloc::Global;

/// A text that was read by an edition: its tree, and its errors in order.
#[derive(Drop)]
pub(crate) struct Reading<'t> {
    pub(crate) text: &'t str,
    pub(crate) edition: Edition,
    pub(crate) tree: Resource<Span>,
    pub(crate) errors: Vec<ParserError>,
}

/// Reads the input by the edition of the number.
///
/// `Argument` where no edition has the number, and otherwise `Input` where the input is not UTF-8; `Memory` where a
/// growth was refused, `Depth` where placeables and argument lists nest more than `nesting` deep.
pub(crate) fn read(
    alloc: Global,
    edition: u32,
    nesting: usize,
    input: &[u8],
) -> Result<Reading<'_>, Refusal>
    ensures reading { IfOk result (IsEditionReading edition input.now) }
    ensures short { IfOk result (λ reading. length reading.text.now + 1 < 2 ^ 63) }
    ensures positions { IfOk result (λ reading. All (λ e. e.pos.start ≤ length reading.text.now) reading.errors.items) }
    ensures parts { IfOk result (λ reading. ResourceParts reading.text.now reading.tree) }
    ensures argument { (result ≡ Err Refusal.Argument) ↔ IsNoEdition edition }
    ensures input { ¬ (IsNoEdition edition) → ((result ≡ Err Refusal.Input) ↔ ¬ (IsUtf8 input.now)) }
    ensures deep { result ≡ Err Refusal.Depth → nesting < length input.now }
    ensures deeper { result ≡ Err Refusal.Depth → EditionReadsDeeper edition input.now nesting }
    ensures shallow { IfOk result (λ reading. EditionReadsDeeper edition input.now nesting → ⊥) }
    ensures tree { result ≢ Err Refusal.Tree }
{
    let Some(edition) = edition_of(edition) else {
        return Err(Refusal::Argument);
    };
    let text = text_of(input)?;
    read_text(alloc, text, edition, nesting)
}

fn read_text(
    alloc: Global,
    text: &str,
    edition: Edition,
    nesting: usize,
) -> Result<Reading<'_>, Refusal>
    requires { length text.now + 1 < 2 ^ 63 }
    ensures reading { IfOk result (IsReading edition text.now) }
    ensures short { IfOk result (λ reading. length reading.text.now + 1 < 2 ^ 63) }
    ensures positions { IfOk result (λ reading. All (λ e. e.pos.start ≤ length reading.text.now) reading.errors.items) }
    ensures parts { IfOk result (λ reading. ResourceParts reading.text.now reading.tree) }
    ensures err { IfErr result (λ refusal. (refusal ≡ Refusal.Memory) ⊎ (refusal ≡ Refusal.Depth)) }
    ensures deep { result ≡ Err Refusal.Depth → nesting < length text.now }
    ensures deeper { result ≡ Err Refusal.Depth → NestsDeeper edition text.now nesting }
    ensures shallow { IfOk result (λ reading. NestsDeeper edition text.now nesting → ⊥) }
{
    let Ok(answer) = parse_spans_within(alloc, text, edition, nesting) else {
        return Err(Refusal::Depth);
    };
    match recovered(alloc, answer) {
        Ok((tree, errors)) => Ok(Reading {
            text,
            edition,
            tree,
            errors,
        }),
        Err(_) => Err(Refusal::Memory),
    }
}

/// Whether there are errors.
pub(crate) fn outcome_of(errors: &Vec<ParserError>) -> Outcome
    ensures { (faults : List Fault) → map fault_of errors.now.items ≡ map Some faults → result ≡ outcome_with faults }
{
    if errors.is_empty() {
        Outcome::Clean
    } else {
        Outcome::SyntaxErrors
    }
}
