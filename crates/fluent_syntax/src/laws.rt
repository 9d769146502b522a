//! Laws that callers may rely on.
ghost use Rattle.std.specs.Prelude.{◌≡◌, true, string_bytes};
ghost use Rattle.fluent_syntax.specs.RoundTrip.{AnswersWritten, IsTree};
ghost use Rattle.fluent_syntax.specs.SameAnswers.{SameAnswers};
ghost use Rattle.fluent_syntax_grammar.specs.Canonical.{is_canonical};
ghost use Rattle.fluent_syntax_grammar.specs.Joined.{joined_body};
ghost use Rattle.fluent_syntax_parser.specs.Answers.{AnswersRuntimeTiling, AnswersTiling};
ghost use Rattle.fluent_syntax_tree.specs.Entry.{body_map};
ghost use Rattle.fluent_syntax_tree.specs.Spans.{bytes_at};
ghost use Rattle.fluent_syntax_tree.specs.View.{resource_view};

use crate::parser::{Edition, ParseFault, Result, Slice, parse};
pub use fluent_syntax_grammar::{
    formatting_is_idempotent, parse_is_readable, reads_back, serialize_is_injective, unique_reading,
};
use fluent_syntax_tree::ast::Resource;
pub use fluent_syntax_tree::laws::same_texts;
pub use fluent_syntax_writer::canonical::{
    Rule, Uncanonical, broken_rule, broken_rule_with, first_uncanonical, first_uncanonical_with,
    is_canonical, is_readable,
};
pub use fluent_syntax_writer::joined::joined;
use fluent_syntax_writer::serializer::serialize;
use std::alloc::{AllocError, Global};

/// What parsing answers depends on the text and the edition alone: two answers, as one over `&str` and
/// one over `String`, are equal text by text, with equal errors.
///
/// - `tiling`: so it is where both answer the text's tiling, as `parse_edition` does.
/// - `runtime`: so it is where both answer its tiling without comments, as `parse_runtime_edition` does.
pub fn same_answers<'s, 'z, S: Slice<'s>, Z: Slice<'z>>(
    text: &str,
    edition: Edition,
    a: &Result<S>,
    b: &Result<Z>,
)
    ensures tiling { AnswersTiling S.text (body_map (bytes_at text.now)) edition text.now a.now
        → AnswersTiling Z.text (body_map (bytes_at text.now)) edition text.now b.now
        → SameAnswers S.text Z.text a.now b.now }
    ensures runtime { AnswersRuntimeTiling S.text (body_map (bytes_at text.now)) edition text.now a.now
        → AnswersRuntimeTiling Z.text (body_map (bytes_at text.now)) edition text.now b.now
        → SameAnswers S.text Z.text a.now b.now }
{}

/// Writes the tree without its junk, and reads that text by edition one.
///
/// - `answers`: so the answer is what `parse` gives for that text.
/// - `back`: of a canonical tree it is `Ok` of the tree, text by text.
/// - `joined`: so it is of the joined tree, where that is canonical: the tree without its junk, and with each text that
///   is one LF joined to the text before it, if that does not end in LF.
///
/// `Memory` where a growth was refused, or where the text is as long as the greatest `usize`.
pub fn reparse<'s, S: Slice<'s>>(alloc: Global, r: &Resource<S>) -> Result<String>
    ensures answers { AnswersWritten string_bytes (resource_view S.text r.now) result }
    ensures back { is_canonical Edition.One (resource_view S.text r.now) ≡ true
        → IsTree string_bytes (resource_view S.text r.now) result }
    ensures joined { is_canonical Edition.One (joined_body (resource_view S.text r.now)) ≡ true
        → IsTree string_bytes (joined_body (resource_view S.text r.now)) result }
{
    let text = match serialize(alloc, r) {
        Ok(text) => text,
        Err(AllocError) => return Err(ParseFault::Memory),
    };
    if text.len() == usize::MAX {
        return Err(ParseFault::Memory);
    }
    parse(alloc, text)
}
