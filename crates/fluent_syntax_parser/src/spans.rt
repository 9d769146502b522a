//! Whole texts.
ghost use Rattle.std.specs.Prelude.{◌≡◌, ◌+◌, ◌<◌, ◌^◌, ◌≢◌, [], length, Err, IfErr, IfOk, IsOk, IsOkAnd, OnErr};
ghost use Rattle.fluent_syntax_tree.specs.Entry.{body_map};
ghost use Rattle.fluent_syntax_grammar.specs.Nesting.{NestsDeeper, RuntimeNestsDeeper, TextDeeper};
ghost use Rattle.fluent_syntax_grammar.specs.Places.{BlankBlock};
ghost use Rattle.fluent_syntax_parser.specs.Answers.{AnswersRuntimeSpans, AnswersSpans, ErrorsInText};
ghost use Rattle.fluent_syntax_parser.specs.Rest.{AnswersIn, AnswersSpansIn, TileIn};
ghost use Rattle.fluent_syntax_parser.specs.Halts.{DeeperFrom, HaltsWithin, OnHalt};
ghost use Rattle.fluent_syntax_parser.specs.Parts.{HasParts};
ghost use Rattle.fluent_syntax_parser.specs.declared.fault.ParseFault.TheVariants.{Memory};
ghost use Rattle.fluent_syntax_parser.specs.MadeEntries.{MadeBody};

use crate::fault::{ParseFault, TooDeep, answer_of};
use crate::options::{Comments, Halt, Options};
use crate::reader::Reader;
use crate::source::Source;
use crate::texts::{AsSpans, MakeTexts};
use fluent_syntax_tree::ast::{Entry, Resource};
use fluent_syntax_tree::edition::Edition;
use fluent_syntax_tree::errors::ParserError;
use fluent_syntax_tree::spans::Span;
use std::alloc::Global;

/// For so many bytes of a text there is room for one entry from the start.
const BYTES_OF_ENTRY: usize = 64;

impl<'s, 't, M: MakeTexts> Reader<'s, 't, M> {
    /// The entries and the errors of the text.
    fn get_body(
        &self,
        comments: Comments,
        nesting: usize,
    ) -> Result<(Vec<Entry<M::Text>>, Vec<ParserError>), Halt>
        ensures read { let t = self.now.source.bytes.now in IfOk result (λ read. MadeBody
            (M.source self.now.texts.now) M.made comments self.now.edition t read.0.items read.1.items) }
        ensures blank { let t = self.now.source.bytes.now in
            BlankBlock t 0 (length t) → IsOkAnd result (λ read. read.1.items ≡ []) }
        ensures nests { IfErr result (HaltsWithin nesting (length self.now.source.bytes.now)) }
        ensures deeper { let t = self.now.source.bytes.now in let at = TileIn comments self.now.edition t in
            IfErr result (OnHalt (TextDeeper self.now.edition t at nesting 0)) }
        ensures shallow { let t = self.now.source.bytes.now in let at = TileIn comments self.now.edition t in
            IfOk result (λ _. TextDeeper self.now.edition t at nesting 0 → ⊥) }
    {
        let mut body = Vec::new(self.alloc);
        let mut errors = Vec::new(self.alloc);
        // room that is refused is asked for again where an entry needs it; a blank text needs none
        let first = self.source.skip_blank_block(0);
        let _ = body.reserve((self.source.bytes.len() - first) / BYTES_OF_ENTRY);
        let mut ptr = 0;
        loop {
            let Some(span) = self.add_next(&mut body, &mut errors, comments, nesting, ptr)? else {
                return Ok((body, errors));
            };
            ptr = span.end;
        }
    }
}

/// Reads a text as the options say, with its texts made in that way. `TooDeep` where it nests more deeply than they
/// allow.
pub fn parse_texts<M: MakeTexts>(
    alloc: Global,
    source: &str,
    options: Options,
    texts: &M,
) -> Result<Result<Resource<M::Text>, ParseFault<M::Text>>, TooDeep>
    ensures tiling { IfOk result (AnswersIn M.made (body_map (M.source texts.now)) options.comments options.edition
        source.now) }
    ensures places { IfOk result (ErrorsInText source.now) }
    ensures blank { BlankBlock source.now 0 (length source.now) → IfOk result (λ answer. IsOk answer) }
    ensures nests { OnErr result (options.nesting < length source.now) }
    ensures deeper { OnErr result (DeeperFrom options source.now 0) }
    ensures shallow { IfOk result (λ answer. answer ≢ Err Memory → DeeperFrom options source.now 0 → ⊥) }
{
    let reader = Reader {
        source: Source {
            bytes: source.as_bytes(),
        },
        alloc,
        edition: options.edition,
        texts,
    };
    match reader.get_body(options.comments, options.nesting) {
        Ok((body, errors)) => Ok(answer_of(body, errors)),
        Err(Halt::Memory) => Ok(Err(ParseFault::Memory)),
        Err(Halt::TooDeep) => Err(TooDeep),
    }
}

/// Reads a text as the options say. `TooDeep` where it nests more deeply than they allow.
fn parse_by(
    alloc: Global,
    source: &str,
    options: Options,
) -> Result<Result<Resource<Span>, ParseFault<Span>>, TooDeep>
    ensures tiling { IfOk result (AnswersSpansIn options.comments options.edition source.now) }
    ensures spans { IfOk result (HasParts source.now) }
    ensures places { IfOk result (ErrorsInText source.now) }
    ensures blank { BlankBlock source.now 0 (length source.now) → IfOk result (λ answer. IsOk answer) }
    ensures nests { OnErr result (options.nesting < length source.now) }
    ensures deeper { OnErr result (DeeperFrom options source.now 0) }
    ensures shallow { IfOk result (λ answer. answer ≢ Err Memory → DeeperFrom options source.now 0 → ⊥) }
{
    parse_texts(alloc, source, options, &AsSpans)
}

/// Reads a text that may nest as deeply as it does.
fn parse_at_any_depth(
    alloc: Global,
    source: &str,
    edition: Edition,
    comments: Comments,
) -> Result<Resource<Span>, ParseFault<Span>>
    ensures tiling { AnswersSpansIn comments edition source.now result }
    ensures spans { HasParts source.now result }
    ensures places { ErrorsInText source.now result }
    ensures blank { BlankBlock source.now 0 (length source.now) → IsOk result }
{
    let options = Options {
        edition,
        comments,
        nesting: usize::MAX,
    };
    match parse_by(alloc, source, options) {
        Ok(answer) => answer,
        // no text is longer than the greatest usize
        Err(TooDeep) => Err(ParseFault::Memory),
    }
}

/// Reads a text by the first edition of the grammar, with its comments.
///
/// Answers the tree with a span of the source, in bytes, in place of each text. Where parts of the source are refused,
/// the answer is `ParseFault::Syntax` with the tree, which has them as junk, and one error for each, whose place begins
/// within the source. It is `ParseFault::Memory` where a growth was refused, whatever was found before. A text that is
/// only blank lines takes no memory.
pub fn parse_spans(alloc: Global, source: &str) -> Result<Resource<Span>, ParseFault<Span>>
    requires { length source.now + 1 < 2 ^ 64 }
    ensures spans { HasParts source.now result }
    ensures tiling { AnswersSpans Edition.One source.now result }
    ensures places { ErrorsInText source.now result }
    ensures blank { BlankBlock source.now 0 (length source.now) → IsOk result }
{
    parse_at_any_depth(alloc, source, Edition::One, Comments::Kept)
}

/// Reads a text as `parse_spans` does, by the given edition of the grammar.
pub fn parse_spans_edition(
    alloc: Global,
    source: &str,
    edition: Edition,
) -> Result<Resource<Span>, ParseFault<Span>>
    requires { length source.now + 1 < 2 ^ 64 }
    ensures spans { HasParts source.now result }
    ensures tiling { AnswersSpans edition source.now result }
    ensures places { ErrorsInText source.now result }
    ensures blank { BlankBlock source.now 0 (length source.now) → IsOk result }
{
    parse_at_any_depth(alloc, source, edition, Comments::Kept)
}

/// Reads a text by the first edition of the grammar, without its comments.
///
/// Where an entry would begin with `#`, the rest of that line is dropped, malformed or not, so no entry of the answer
/// is a comment and none has one. Otherwise it is as `parse_spans`.
pub fn parse_runtime_spans(alloc: Global, source: &str) -> Result<Resource<Span>, ParseFault<Span>>
    requires { length source.now + 1 < 2 ^ 64 }
    ensures spans { HasParts source.now result }
    ensures tiling { AnswersRuntimeSpans Edition.One source.now result }
    ensures places { ErrorsInText source.now result }
    ensures blank { BlankBlock source.now 0 (length source.now) → IsOk result }
{
    parse_at_any_depth(alloc, source, Edition::One, Comments::Dropped)
}

/// Reads a text as `parse_runtime_spans` does, by the given edition of the grammar.
pub fn parse_runtime_spans_edition(
    alloc: Global,
    source: &str,
    edition: Edition,
) -> Result<Resource<Span>, ParseFault<Span>>
    requires { length source.now + 1 < 2 ^ 64 }
    ensures spans { HasParts source.now result }
    ensures tiling { AnswersRuntimeSpans edition source.now result }
    ensures places { ErrorsInText source.now result }
    ensures blank { BlankBlock source.now 0 (length source.now) → IsOk result }
{
    parse_at_any_depth(alloc, source, edition, Comments::Dropped)
}

/// Reads a text as `parse_spans_edition` does, if its placeables and argument lists nest at most `nesting` deep.
///
/// `TooDeep` where they nest deeper, and nothing comes back. The stack that reading takes is bounded by `nesting`.
pub fn parse_spans_within(
    alloc: Global,
    source: &str,
    edition: Edition,
    nesting: usize,
) -> Result<Result<Resource<Span>, ParseFault<Span>>, TooDeep>
    ensures spans { IfOk result (HasParts source.now) }
    ensures tiling { IfOk result (AnswersSpans edition source.now) }
    ensures places { IfOk result (ErrorsInText source.now) }
    ensures blank { BlankBlock source.now 0 (length source.now) → IfOk result (λ answer. IsOk answer) }
    ensures nests { OnErr result (nesting < length source.now) }
    ensures deeper { OnErr result (NestsDeeper edition source.now nesting) }
    ensures shallow { IfOk result (λ answer. answer ≢ Err Memory → NestsDeeper edition source.now nesting → ⊥) }
{
    let options = Options {
        edition,
        comments: Comments::Kept,
        nesting,
    };
    parse_by(alloc, source, options)
}

/// Reads a text as `parse_runtime_spans_edition` does, if its placeables and argument lists nest at most `nesting`
/// deep.
///
/// `TooDeep` where they nest deeper, and nothing comes back. The stack that reading takes is bounded by `nesting`.
pub fn parse_runtime_spans_within(
    alloc: Global,
    source: &str,
    edition: Edition,
    nesting: usize,
) -> Result<Result<Resource<Span>, ParseFault<Span>>, TooDeep>
    ensures spans { IfOk result (HasParts source.now) }
    ensures tiling { IfOk result (AnswersRuntimeSpans edition source.now) }
    ensures places { IfOk result (ErrorsInText source.now) }
    ensures blank { BlankBlock source.now 0 (length source.now) → IfOk result (λ answer. IsOk answer) }
    ensures nests { OnErr result (nesting < length source.now) }
    ensures deeper { OnErr result (RuntimeNestsDeeper edition source.now nesting) }
    ensures shallow { IfOk result (λ answer. answer ≢ Err Memory → RuntimeNestsDeeper edition source.now nesting → ⊥) }
{
    let options = Options {
        edition,
        comments: Comments::Dropped,
        nesting,
    };
    parse_by(alloc, source, options)
}
