//! Texts read with a text of the source in place of each span.
ghost use Rattle.std.specs.Prelude.{◌+◌, ◌<◌, ◌^◌, ◌≢◌, length, Err, IfOk, IsOk, OnErr};
ghost use Rattle.fluent_syntax.specs.Errors.{ErrorsAscend, JunkIsRefused};
ghost use Rattle.fluent_syntax_grammar.specs.Places.{BlankBlock};
ghost use Rattle.fluent_syntax_parser.specs.Answers.{ErrorsInText};
ghost use Rattle.fluent_syntax_parser.specs.Halts.{DeeperFrom};
ghost use Rattle.fluent_syntax_parser.specs.Rest.{AnswersIn};
ghost use Rattle.fluent_syntax_parser.specs.declared.fault.ParseFault.TheVariants.{Memory};
ghost use Rattle.fluent_syntax_tree.specs.Entry.{body_map};
ghost use Rattle.fluent_syntax_tree.specs.Spans.{bytes_at};

use crate::parser;
use fluent_syntax_parser::fault::{ParseFault, TooDeep};
use fluent_syntax_parser::options::{Comments, Options};
use fluent_syntax_parser::parse_texts;
use fluent_syntax_parser::texts::Slices;
use fluent_syntax_tree::edition::Edition;
use fluent_syntax_tree::slice::Slice;
use std::alloc::Global;

/// Reads a text as the options say. `TooDeep` where it nests more deeply than they allow.
pub(crate) fn parse_by<'s, S: Slice<'s>>(
    alloc: Global,
    input: &S,
    options: Options,
) -> Result<parser::Result<S>, TooDeep>
    ensures tiling { let t = S.text input.now in
        IfOk result (AnswersIn S.text (body_map (bytes_at t)) options.comments options.edition t) }
    ensures blank { let t = S.text input.now in BlankBlock t 0 (length t) → IfOk result (λ answer. IsOk answer) }
    ensures junk { IfOk result (JunkIsRefused (S.text input.now) S.text) }
    ensures errors { IfOk result (ErrorsAscend (S.text input.now)) }
    ensures places { IfOk result (ErrorsInText (S.text input.now)) }
    ensures nests { OnErr result (options.nesting < length (S.text input.now)) }
    ensures deeper { OnErr result (DeeperFrom options (S.text input.now) 0) }
    ensures shallow { IfOk result (λ answer. answer ≢ Err Memory → DeeperFrom options (S.text input.now) 0 → ⊥) }
{
    let slices: Slices<'_, 's, S> = Slices::new(input);
    parse_texts(alloc, input.as_str(), options, &slices)
}

/// Reads a text that may nest as deeply as it does.
pub(crate) fn parse_at_any_depth<'s, S: Slice<'s>>(
    alloc: Global,
    input: &S,
    edition: Edition,
    comments: Comments,
) -> parser::Result<S>
    requires { length (S.text input.now) + 1 < 2 ^ 64 }
    ensures tiling { let t = S.text input.now in
        AnswersIn S.text (body_map (bytes_at t)) comments edition t result }
    ensures blank { let t = S.text input.now in BlankBlock t 0 (length t) → IsOk result }
    ensures junk { JunkIsRefused (S.text input.now) S.text result }
    ensures errors { ErrorsAscend (S.text input.now) result }
    ensures places { ErrorsInText (S.text input.now) result }
{
    let options = Options {
        edition,
        comments,
        nesting: usize::MAX,
    };
    match parse_by(alloc, input, options) {
        Ok(answer) => answer,
        // no text is longer than the greatest usize
        Err(TooDeep) => Err(ParseFault::Memory),
    }
}
