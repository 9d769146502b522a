//! Texts with their trees.
ghost use Rattle.std.specs.Prelude.{◌≡◌, ◌⊎◌, ◌<◌, length, Err, IfErr, IfOk};
ghost use Rattle.std.specs.Str.{IsUtf8};
ghost use Rattle.fluent_syntax_c.specs.Arguments.{IsNoEdition};
ghost use Rattle.fluent_syntax_c.specs.Depth.{EditionReadsDeeper};
ghost use Rattle.fluent_syntax_c.specs.Edits.{IsEditionTextTree};

use crate::readings::{outcome_of, read};
use crate::status::Refusal;
use fluent_syntax::ast::Resource;
use fluent_syntax::parser::Edition;
use fluent_syntax::spans::resolve;
use ftl::Outcome;
use std::alloc::{AllocError, Global};

/// A text that was read by an edition: its tree, and whether it has errors.
#[derive(Drop)]
pub(crate) struct TextTree<'t> {
    pub(crate) text: &'t str,
    pub(crate) edition: Edition,
    pub(crate) tree: Resource<&'t str>,
    pub(crate) outcome: Outcome,
}

/// The tree of the input, read by the edition of the number.
///
/// `Memory` where a growth was refused, `Depth` where placeables and argument lists nest more than `nesting` deep.
pub(crate) fn text_tree<'t>(
    alloc: Global,
    edition: u32,
    nesting: usize,
    input: &'t [u8],
) -> Result<TextTree<'t>, Refusal>
    requires edition { ¬ (IsNoEdition edition) }
    requires utf8 { IsUtf8 input.now }
    ensures tree { IfOk result (IsEditionTextTree edition input.now) }
    ensures err { IfErr result (λ refusal. (refusal ≡ Refusal.Memory) ⊎ (refusal ≡ Refusal.Depth)) }
    ensures deep { result ≡ Err Refusal.Depth → nesting < length input.now }
    ensures deeper { result ≡ Err Refusal.Depth → EditionReadsDeeper edition input.now nesting }
    ensures shallow { IfOk result (λ read. EditionReadsDeeper edition input.now nesting → ⊥) }
{
    let reading = read(alloc, edition, nesting, input)?;
    match resolve(alloc, &reading.text, &reading.tree) {
        Ok(tree) => Ok(TextTree {
            text: reading.text,
            edition: reading.edition,
            tree,
            outcome: outcome_of(&reading.errors),
        }),
        Err(AllocError) => Err(Refusal::Memory),
    }
}
