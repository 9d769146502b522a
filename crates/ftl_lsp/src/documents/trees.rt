//! The trees that texts are read as.
ghost use Rattle.std.specs.Prelude.{◌≡◌, List, IfOk, IfSome, map};
ghost use Rattle.fluent_syntax_grammar.specs.RoundTrip.{tree_of};
ghost use Rattle.fluent_syntax_grammar.specs.Tiling.{Tile, Tiling};
ghost use Rattle.fluent_syntax_tree.specs.View.{entry_view};
ghost use Rattle.fluent_syntax_tree.specs.declared.edition.Edition.TheVariants.{One};

use crate::limits::NESTING_LIMIT;
use fluent_syntax::ast::Resource;
use fluent_syntax::parser::{Edition, parse_within, recovered};
use std::alloc::{AllocError, Global};

/// The tree that the text is read as, with its junk. None where it nests too deeply. `AllocError` where a growth was
/// refused.
pub fn tree_of_text(alloc: Global, text: &str) -> Result<Option<Resource<&str>>, AllocError>
    ensures { let t = text.now in IfOk result (λ found. IfSome found (λ tree. (tiles : List Tile)
        × Tiling One t tiles × (map (entry_view (λ s. s.now)) tree.body.items ≡ tree_of t tiles))) }
{
    match parse_within(alloc, text, Edition::One, NESTING_LIMIT) {
        Ok(answer) => {
            let (tree, _errors) = recovered(alloc, answer)?;
            Ok(Some(tree))
        }
        Err(_) => Ok(None),
    }
}
