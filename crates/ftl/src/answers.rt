//! The text that a command writes.
ghost use Rattle.std.specs.Prelude.{◌≡◌, ◌≢◌, ◌&&◌, ◌↔◌, ◌+◌, ◌++◌, ◌^◌, ◌<◌, ◌≤◌, List, length, string_bytes, Err};
ghost use Rattle.std.specs.Prelude.{Ok, IfErr, IfOk, OnErr, OnOk, All, map, true};
ghost use Rattle.std.specs.List.{flat_map};
ghost use Rattle.std.specs.Str.{IsUtf8};
ghost use Rattle.fluent_syntax_tree.specs.Entry.{body_map};
ghost use Rattle.fluent_syntax_tree.specs.Spans.{bytes_at};
ghost use Rattle.fluent_syntax_grammar.specs.Grammar.{family};
ghost use Rattle.fluent_syntax_grammar.specs.Nesting.{NestsDeeper, TextDeeper};
ghost use Rattle.fluent_syntax_grammar.specs.Tiling.{Tile, Tiled, Tiling};
ghost use Rattle.fluent_syntax_grammar.specs.Body.{body};
ghost use Rattle.fluent_syntax_grammar.specs.Canonical.{is_canonical};
ghost use Rattle.fluent_syntax_parser.specs.Halts.{DeeperFrom, HaltsWithin, OnHalt};
ghost use Rattle.fluent_syntax_parser.specs.Rest.{TileIn};
ghost use Rattle.fluent_syntax_parser.specs.declared.fault.ParseFault.TheVariants.{Memory};
ghost use Rattle.ftl.specs.Answer.{IsAnswer, ReadsDeeper, error_line, error_lines, error_text, json_text};
ghost use Rattle.ftl.specs.Answer.{HasTiles, normal_text, outcome_of, outcome_with, range_text, error_fault, text_of};

use crate::command::Command;
use crate::errors::errors_within;
use crate::one_by_one::write_one_by_one;
use crate::outcome::{Outcome, RunFault};
use crate::writers::NormalWriter;
use fluent_syntax::ast::Entry;
use fluent_syntax::parser::{Edition, ParserError, TooDeep};
use fluent_syntax::spans::{Comments, Entries, Halt, Lines, Options, Span};
use fluent_syntax::unicode::SinkError;
use fluent_syntax_json::BodyWriter;
use simdutf8::basic::from_utf8;
use std::alloc::{AllocError, Global};
use std::fmt::Write;

/// The command's text of the input, and what was found in it.
///
/// `Input` for bytes that are not UTF-8, which is tested first and takes no memory; `Memory` where a
/// growth was refused, and for an input of the greatest `usize` of bytes, which no memory holds.
pub fn answer(alloc: Global, command: Command, input: &[u8]) -> Result<(String, Outcome), RunFault>
    ensures text { IfOk result (λ answer. IsAnswer command input.now (string_bytes answer.0) answer.1) }
    ensures input { (result ≡ Err RunFault.Input) ↔ ¬ (IsUtf8 input.now) }
    ensures output { result ≢ Err RunFault.Output }
{
    match answer_within(alloc, command, input, usize::MAX) {
        Ok(answer) => answer,
        // no text is longer than the greatest usize
        Err(TooDeep) => Err(RunFault::Memory),
    }
}

/// What `answer` gives, if the placeables and argument lists of the input nest at most `nesting` deep.
///
/// `TooDeep` where they nest deeper. The stack that reading takes is bounded by `nesting`.
pub fn answer_within(
    alloc: Global,
    command: Command,
    input: &[u8],
    nesting: usize,
) -> Result<Result<(String, Outcome), RunFault>, TooDeep>
    ensures text { IfOk result (λ answer. IfOk answer (λ given.
        IsAnswer command input.now (string_bytes given.0) given.1)) }
    ensures input { (result ≡ Ok (Err RunFault.Input)) ↔ ¬ (IsUtf8 input.now) }
    ensures output { result ≢ Ok (Err RunFault.Output) }
    ensures deep { OnErr result (nesting < length input.now) }
    ensures deeper { OnErr result (ReadsDeeper command input.now nesting) }
    ensures shallow { IfOk result (λ answer. IfOk answer (λ given. ReadsDeeper command input.now nesting → ⊥)) }
{
    let Ok(text) = from_utf8(input) else {
        return Ok(Err(RunFault::Input));
    };
    if text.len() == usize::MAX {
        return Ok(Err(RunFault::Memory));
    }
    match text_answer(alloc, command, text, nesting) {
        Ok(answer) => Ok(Ok(answer)),
        Err(Halt::Memory) => Ok(Err(RunFault::Memory)),
        Err(Halt::TooDeep) => Err(TooDeep),
    }
}

/// What the command answers to a text.
fn text_answer(
    alloc: Global,
    command: Command,
    text: &str,
    nesting: usize,
) -> Result<(String, Outcome), Halt>
    requires { length text.now + 1 < 2 ^ 64 }
    ensures text { IfOk result (λ given. (tiles : List Tile) × HasTiles command text.now tiles
        × (string_bytes given.0 ≡ text_of command text.now tiles) × (given.1 ≡ outcome_of tiles)) }
    ensures nests { IfErr result (HaltsWithin nesting (length text.now)) }
    ensures deeper { IfErr result (OnHalt (ReadsDeeper command text.now nesting)) }
    ensures shallow { IfOk result (λ given. ReadsDeeper command text.now nesting → ⊥) }
{
    match command {
        Command::Check => check(alloc, text, Edition::One, nesting),
        Command::CheckTwo => check(alloc, text, Edition::Two, nesting),
        Command::Format => format(alloc, text, Edition::One, Comments::Kept, nesting),
        Command::FormatTwo => format(alloc, text, Edition::Two, Comments::Kept, nesting),
        Command::Runtime => format(alloc, text, Edition::One, Comments::Dropped, nesting),
        Command::Json => json(alloc, text, nesting),
    }
}

/// A line for each error.
fn check(
    alloc: Global,
    text: &str,
    edition: Edition,
    nesting: usize,
) -> Result<(String, Outcome), Halt>
    requires { length text.now + 1 < 2 ^ 64 }
    ensures text { IfOk result (λ given. (tiles : List Tile) × Tiling edition text.now tiles
        × (string_bytes given.0 ≡ error_lines text.now tiles) × (given.1 ≡ outcome_of tiles)) }
    ensures nests { IfErr result (HaltsWithin nesting (length text.now)) }
    ensures deeper { IfErr result (OnHalt (NestsDeeper edition text.now nesting)) }
    ensures shallow { IfOk result (λ given. NestsDeeper edition text.now nesting → ⊥) }
{
    let errors = errors_within(alloc, text, edition, nesting)?;
    let errors = errors.as_slice();
    Ok((error_lines(alloc, text, errors)?, outcome_of(errors)))
}

/// Whether there are errors.
fn outcome_of(errors: &[ParserError]) -> Outcome
    ensures { result ≡ outcome_with (map error_fault errors.now) }
{
    if errors.is_empty() {
        Outcome::Clean
    } else {
        Outcome::SyntaxErrors
    }
}

/// A line for each of the errors of the text.
fn error_lines(alloc: Global, text: &str, errors: &[ParserError]) -> Result<String, AllocError>
    requires short { length text.now + 1 < 2 ^ 64 }
    requires places { All (λ e. e.pos.start ≤ length text.now) errors.now }
    ensures { IfOk result (λ lines. string_bytes lines ≡ flat_map (error_line text.now) (map error_fault errors.now)) }
{
    let mut places = Lines::new(text);
    let mut out = String::new(alloc);
    for error in errors {
        let (line, column) = places.line_column(error.pos.start);
        write_line(&mut out, line, column, error)?;
    }
    Ok(out)
}

/// `LINE:COLUMN START..END FROM..TO NAME`: where the error is, by lines and by bytes, the junk's
/// bytes, and the kind.
fn write_line(
    out: &mut String,
    line: usize,
    column: usize,
    error: &ParserError,
) -> Result<(), AllocError>
    ensures { OnOk result (string_bytes out.new ≡ string_bytes out.old
        ++ error_text line column (error_fault error.now)) }
{
    let place = Span {
        start: error.pos.start,
        end: error.pos.end,
    };
    let junk = junk_of(error);
    write!(out, "{line}:{column} ")?;
    write_range(out, place)?;
    write_range(out, junk)?;
    out.push_str(error.kind.name())?;
    out.push('\n')
}

/// `START..END` and a space.
fn write_range(out: &mut String, range: Span) -> Result<(), AllocError>
    ensures { OnOk result (string_bytes out.new ≡ string_bytes out.old ++ range_text range) }
{
    let Span { start, end } = range;
    write!(out, "{start}..{end} ")
}

/// The bytes that became junk, or the error's place where it has none.
fn junk_of(error: &ParserError) -> Span
    ensures { result ≡ (error_fault error.now).slice }
{
    match &error.slice {
        Some(junk) => Span {
            start: junk.start,
            end: junk.end,
        },
        None => Span {
            start: error.pos.start,
            end: error.pos.end,
        },
    }
}

/// A text in its normal form.
#[derive(Debug, Drop)]
pub struct Formatted {
    /// The normal form.
    pub text: String,
    /// What was found in the text.
    pub outcome: Outcome,
    /// Whether each entry of the text's tree is canonical. Then the normal form reads as that tree.
    pub is_canonical: bool,
}

/// The normal form of a text, with its comments. Whether its tree is canonical costs no second reading.
///
/// `Memory`: a growth was refused. `TooDeep` where the text nests deeper than `nesting`.
pub fn formatted_within(
    alloc: Global,
    text: &str,
    edition: Edition,
    nesting: usize,
) -> Result<Formatted, Halt>
    ensures text { let t = text.now in IfOk result (λ given. (tiles : List Tile) × Tiling edition t tiles
        × (string_bytes given.text ≡ normal_text t tiles) × (given.outcome ≡ outcome_of tiles)
        × (given.is_canonical ≡ is_canonical edition (body_map (bytes_at t) (body tiles)))) }
    ensures nests { IfErr result (HaltsWithin nesting (length text.now)) }
    ensures deeper { IfErr result (OnHalt (NestsDeeper edition text.now nesting)) }
    ensures shallow { IfOk result (λ given. NestsDeeper edition text.now nesting → ⊥) }
{
    let options = Options {
        edition,
        comments: Comments::Kept,
        nesting,
    };
    normal_form(alloc, text, options, true)
}

/// The text of the tree of the text, without its junk.
fn format(
    alloc: Global,
    text: &str,
    edition: Edition,
    comments: Comments,
    nesting: usize,
) -> Result<(String, Outcome), Halt>
    ensures text { let t = text.now in IfOk result (λ given. (tiles : List Tile)
        × Tiled t (TileIn comments edition t (family edition t)) 0 tiles
        × (string_bytes given.0 ≡ normal_text t tiles) × (given.1 ≡ outcome_of tiles)) }
    ensures nests { IfErr result (HaltsWithin nesting (length text.now)) }
    ensures deeper { let t = text.now in
        IfErr result (OnHalt (TextDeeper edition t (TileIn comments edition t) nesting 0)) }
    ensures shallow { let t = text.now in
        IfOk result (λ given. TextDeeper edition t (TileIn comments edition t) nesting 0 → ⊥) }
{
    let options = Options {
        edition,
        comments,
        nesting,
    };
    let Formatted { text, outcome, .. } = normal_form(alloc, text, options, false)?;
    Ok((text, outcome))
}

/// The text in its normal form, written as the entries come: none of them is kept. Only if `asks`, it asks whether the
/// tree is canonical; else it says that it is not.
fn normal_form(alloc: Global, text: &str, options: Options, asks: bool) -> Result<Formatted, Halt>
    ensures text { let t = text.now in IfOk result (λ given. (tiles : List Tile)
        × Tiled t (TileIn options.comments options.edition t (family options.edition t)) 0 tiles
        × (string_bytes given.text ≡ normal_text t tiles) × (given.outcome ≡ outcome_of tiles)
        × (given.is_canonical ≡ (asks && is_canonical options.edition (body_map (bytes_at t) (body tiles))))) }
    ensures nests { IfErr result (HaltsWithin options.nesting (length text.now)) }
    ensures deeper { IfErr result (OnHalt (DeeperFrom options text.now 0)) }
    ensures shallow { IfOk result (λ given. DeeperFrom options text.now 0 → ⊥) }
{
    let mut writer = NormalWriter::new(alloc, options.edition, asks, text.len());
    let outcome = write_one_by_one(alloc, &mut writer, text, options)?;
    let is_canonical = writer.all_canonical();
    let text = writer.finish()?;
    Ok(Formatted {
        text,
        outcome,
        is_canonical,
    })
}

/// The JSON form of the text's tree, as compact text, and LF; written as the entries come: none of them is kept.
fn json(alloc: Global, text: &str, nesting: usize) -> Result<(String, Outcome), Halt>
    ensures text { IfOk result (λ given. (tiles : List Tile) × Tiling Edition.One text.now tiles
        × (string_bytes given.0 ≡ json_text text.now tiles) × (given.1 ≡ outcome_of tiles)) }
    ensures nests { IfErr result (HaltsWithin nesting (length text.now)) }
    ensures deeper { IfErr result (OnHalt (NestsDeeper Edition.One text.now nesting)) }
    ensures shallow { IfOk result (λ given. NestsDeeper Edition.One text.now nesting → ⊥) }
{
    let options = Options {
        edition: Edition::One,
        comments: Comments::Kept,
        nesting,
    };
    let mut writer = BodyWriter::new(String::new(alloc));
    let outcome = write_one_by_one(alloc, &mut writer, text, options)?;
    let (mut line, written) = writer.finish();
    match written {
        Ok(()) => line.push('\n')?,
        Err(SinkError) => return Err(Halt::Memory),
    }
    Ok((line, outcome))
}
