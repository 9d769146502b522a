//! Laws of trees.
ghost use Rattle.std.specs.Prelude.{◌≡◌, ◌↔◌, IsTrue};
ghost use Rattle.fluent_syntax_tree.specs.View.{resource_view};

use crate::ast::Resource;
use crate::slice::Slice;

/// Whether `a == b`, which is equality text by text: the same shape, and equal texts. Takes no memory.
pub fn same_texts<'s, S: Slice<'s>>(a: &Resource<S>, b: &Resource<S>) -> bool
    ensures { IsTrue result ↔ (resource_view S.text a.now ≡ resource_view S.text b.now) }
{
    a == b
}
