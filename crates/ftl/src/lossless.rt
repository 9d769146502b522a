//! Which trees may be written in the place of the text that they were read from.
ghost use Rattle.std.specs.Prelude.{◌≡◌, IfOk, IfSome, is_none};
ghost use Rattle.fluent_syntax_writer.specs.Uncanonical.{IsFirstBroken};
ghost use Rattle.fluent_syntax_tree.specs.View.{resource_view};
ghost use Rattle.ftl.specs.Lossless.{is_lossless, reread_tree};

use fluent_syntax::ast::Resource;
use fluent_syntax::laws::{Uncanonical, first_uncanonical_with, joined};
use fluent_syntax::parser::{Edition, Slice};
use std::alloc::{AllocError, Global};

/// The first entry by which the tree of a text is not safe to write in the text's place, and the rule that it breaks;
/// `None` where it is safe: then its written text reads back, by edition one as the joined tree, which has the same
/// messages and terms, by edition two as the tree itself.
///
/// The entry is one of the joined tree by edition one, which for a text without errors has the entries of the tree.
///
/// `AllocError`: a growth was refused.
pub fn first_lossy_entry<'s, S: Slice<'s>>(
    alloc: Global,
    tree: &Resource<S>,
    edition: Edition,
) -> Result<Option<Uncanonical>, AllocError>
    ensures none { IfOk result (λ found. is_none found ≡ is_lossless edition (resource_view S.text tree.now)) }
    ensures first { IfOk result (λ found. IfSome found (λ broken.
        IsFirstBroken edition (reread_tree edition (resource_view S.text tree.now)) broken)) }
{
    match edition {
        Edition::One => {
            let joined = joined(alloc, tree)?;
            Ok(first_uncanonical_with(alloc, &joined, edition))
        },
        Edition::Two => Ok(first_uncanonical_with(alloc, tree, edition)),
    }
}
