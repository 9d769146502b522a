//! Both parsers, with trees of texts.
ghost use Rattle.std.specs.Prelude.{◌+◌, ◌^◌, ◌<◌, ◌≢◌, length, Err, IfOk, IsOk, OnErr};
ghost use Rattle.fluent_syntax.specs.Errors.{ErrorsAscend, JunkIsRefused};
ghost use Rattle.fluent_syntax.specs.RoundTrip.{AnswersReadable};
ghost use Rattle.fluent_syntax_grammar.specs.Nesting.{NestsDeeper, RuntimeNestsDeeper};
ghost use Rattle.fluent_syntax_grammar.specs.Places.{BlankBlock};
ghost use Rattle.fluent_syntax_parser.specs.Answers.{AnswersRuntimeTiling, AnswersTiling, ErrorsInText};
ghost use Rattle.fluent_syntax_parser.specs.declared.fault.ParseFault.TheVariants.{Memory};
ghost use Rattle.fluent_syntax_tree.specs.Entry.{body_map};
ghost use Rattle.fluent_syntax_tree.specs.Spans.{bytes_at};

use crate::entries::{parse_at_any_depth, parse_by};
pub use crate::flat::is_flat;
pub use crate::recovered::recovered;
pub use fluent_syntax_parser::fault::{ParseFault, TooDeep};
use fluent_syntax_parser::options::{Comments, Options};
use fluent_syntax_tree::ast::Resource;
pub use fluent_syntax_tree::edition::Edition;
pub use fluent_syntax_tree::errors::{ErrorKind, ParserError};
pub use fluent_syntax_tree::slice::Slice;
use std::alloc::Global;

/// The tree of a text; or, where parts of it were refused, the tree with them as junk, and an error
/// for each.
pub type Result<S> = std::result::Result<Resource<S>, ParseFault<S>>;

/// Reads a text by edition one of the grammar, with its comments.
///
/// `Syntax` where at least one error was found: the tree and the errors, one for each junk, in
/// order; the place of each begins within the text, as `line_column` asks. `Memory` where a growth was refused,
/// whatever was found before. The text has to have fewer bytes than the greatest `usize`, as every text that can be
/// made has.
pub fn parse<'s, S: Slice<'s>>(alloc: Global, input: S) -> Result<S>
    requires { length (S.text input) + 1 < 2 ^ 64 }
    ensures tiling { AnswersTiling S.text (body_map (bytes_at (S.text input))) Edition.One (S.text input) result }
    ensures readable { AnswersReadable S.text (S.text input) result }
    ensures blank { BlankBlock (S.text input) 0 (length (S.text input)) → IsOk result }
    ensures junk { JunkIsRefused (S.text input) S.text result }
    ensures errors { ErrorsAscend (S.text input) result }
    ensures places { ErrorsInText (S.text input) result }
{
    parse_at_any_depth(alloc, &input, Edition::One, Comments::Kept)
}

/// Reads a text as `parse` does, by the given edition of the grammar.
pub fn parse_edition<'s, S: Slice<'s>>(alloc: Global, input: S, edition: Edition) -> Result<S>
    requires { length (S.text input) + 1 < 2 ^ 64 }
    ensures tiling { AnswersTiling S.text (body_map (bytes_at (S.text input))) edition (S.text input) result }
    ensures blank { BlankBlock (S.text input) 0 (length (S.text input)) → IsOk result }
    ensures junk { JunkIsRefused (S.text input) S.text result }
    ensures errors { ErrorsAscend (S.text input) result }
    ensures places { ErrorsInText (S.text input) result }
{
    parse_at_any_depth(alloc, &input, edition, Comments::Kept)
}

/// Reads a text by edition one of the grammar, without its comments.
///
/// Where an entry would begin with `#`, the rest of that line is dropped, malformed or not.
/// Otherwise as `parse`.
pub fn parse_runtime<'s, S: Slice<'s>>(alloc: Global, input: S) -> Result<S>
    requires { length (S.text input) + 1 < 2 ^ 64 }
    ensures tiling { AnswersRuntimeTiling S.text (body_map (bytes_at (S.text input))) Edition.One
        (S.text input) result }
    ensures blank { BlankBlock (S.text input) 0 (length (S.text input)) → IsOk result }
    ensures junk { JunkIsRefused (S.text input) S.text result }
    ensures errors { ErrorsAscend (S.text input) result }
    ensures places { ErrorsInText (S.text input) result }
{
    parse_at_any_depth(alloc, &input, Edition::One, Comments::Dropped)
}

/// Reads a text as `parse_runtime` does, by the given edition of the grammar.
pub fn parse_runtime_edition<'s, S: Slice<'s>>(
    alloc: Global,
    input: S,
    edition: Edition,
) -> Result<S>
    requires { length (S.text input) + 1 < 2 ^ 64 }
    ensures tiling { AnswersRuntimeTiling S.text (body_map (bytes_at (S.text input))) edition (S.text input) result }
    ensures blank { BlankBlock (S.text input) 0 (length (S.text input)) → IsOk result }
    ensures junk { JunkIsRefused (S.text input) S.text result }
    ensures errors { ErrorsAscend (S.text input) result }
    ensures places { ErrorsInText (S.text input) result }
{
    parse_at_any_depth(alloc, &input, edition, Comments::Dropped)
}

/// Reads a text as `parse_edition` does, if its placeables and argument lists nest at most `nesting` deep.
///
/// `TooDeep` where they nest deeper, and nothing comes back. The stack that reading takes is bounded by `nesting`.
pub fn parse_within<'s, S: Slice<'s>>(
    alloc: Global,
    input: S,
    edition: Edition,
    nesting: usize,
) -> std::result::Result<Result<S>, TooDeep>
    ensures tiling { IfOk result
        (AnswersTiling S.text (body_map (bytes_at (S.text input))) edition (S.text input)) }
    ensures blank { BlankBlock (S.text input) 0 (length (S.text input)) → IfOk result (λ answer. IsOk answer) }
    ensures junk { IfOk result (JunkIsRefused (S.text input) S.text) }
    ensures errors { IfOk result (ErrorsAscend (S.text input)) }
    ensures places { IfOk result (ErrorsInText (S.text input)) }
    ensures nests { OnErr result (nesting < length (S.text input)) }
    ensures deeper { OnErr result (NestsDeeper edition (S.text input) nesting) }
    ensures shallow { IfOk result
        (λ answer. answer ≢ Err Memory → NestsDeeper edition (S.text input) nesting → ⊥) }
{
    let options = Options {
        edition,
        comments: Comments::Kept,
        nesting,
    };
    parse_by(alloc, &input, options)
}

/// Reads a text as `parse_runtime_edition` does, if its placeables and argument lists nest at most `nesting` deep.
///
/// `TooDeep` where they nest deeper, and nothing comes back. The stack that reading takes is bounded by `nesting`.
pub fn parse_runtime_within<'s, S: Slice<'s>>(
    alloc: Global,
    input: S,
    edition: Edition,
    nesting: usize,
) -> std::result::Result<Result<S>, TooDeep>
    ensures tiling { IfOk result
        (AnswersRuntimeTiling S.text (body_map (bytes_at (S.text input))) edition (S.text input)) }
    ensures blank { BlankBlock (S.text input) 0 (length (S.text input)) → IfOk result (λ answer. IsOk answer) }
    ensures junk { IfOk result (JunkIsRefused (S.text input) S.text) }
    ensures errors { IfOk result (ErrorsAscend (S.text input)) }
    ensures places { IfOk result (ErrorsInText (S.text input)) }
    ensures nests { OnErr result (nesting < length (S.text input)) }
    ensures deeper { OnErr result (RuntimeNestsDeeper edition (S.text input) nesting) }
    ensures shallow { IfOk result
        (λ answer. answer ≢ Err Memory → RuntimeNestsDeeper edition (S.text input) nesting → ⊥) }
{
    let options = Options {
        edition,
        comments: Comments::Dropped,
        nesting,
    };
    parse_by(alloc, &input, options)
}
