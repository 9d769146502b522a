//! Tests of trees: which look like a tree that was read, and which read back once they are written.
//!
//! No test needs memory. Those that take an allocator look many names of arguments up in a table, as far as there is
//! memory for it.
ghost use Rattle.std.specs.Prelude.{◌≡◌, is_none, IfSome};
ghost use Rattle.fluent_syntax_tree.specs.View.{resource_view, entry_view};
ghost use Rattle.fluent_syntax_grammar.specs.Readable.{is_readable};
ghost use Rattle.fluent_syntax_grammar.specs.Canonical.{is_canonical, canonical_rules};
ghost use Rattle.fluent_syntax_grammar.specs.Rules.{entry_obeys};
ghost use Rattle.fluent_syntax_writer.specs.Uncanonical.{broken_rule, first_uncanonical, IsFirstBroken};

mod argument_names;
mod arguments;
mod broken_rules;
mod comments;
mod elements;
mod expressions;
mod flush;
mod layout;
mod nodes;
pub mod patterns;
mod plain;
mod rule_set;
mod rules;
mod spellings;
pub mod texts;
mod walk;

pub use broken_rules::Uncanonical;
use fluent_syntax_tree::ast::{Entry, Resource};
use fluent_syntax_tree::edition::Edition;
use fluent_syntax_tree::slice::Slice;
use fluent_syntax_tree::texts::BySlice;
pub use rules::Rule;
use std::alloc::Global;
use walk::RuleCheck;

/// Whether the tree is canonical in the edition. Then it is read back, text by text, from the text that it is written
/// as.
///
/// Takes no memory. The time is that of a walk over the tree, and quadratic in the named arguments of one list.
pub fn is_canonical<'s, S: Slice<'s>>(r: &Resource<S>, edition: Edition) -> bool
    ensures exact { result ≡ is_canonical edition (resource_view S.text r.now) }
{
    first_uncanonical(r, edition).is_none()
}

/// Whether the tree is readable in the edition: it looks like a tree that was read. Each canonical tree is.
///
/// Takes no memory. The time is that of a walk over the tree, and quadratic in the named arguments of one list.
pub fn is_readable<'s, S: Slice<'s>>(r: &Resource<S>, edition: Edition) -> bool
    ensures exact { result ≡ is_readable edition (resource_view S.text r.now) }
{
    broken_rules::are_readable::<S, BySlice<'s>>(
        RuleCheck {
            edition,
            alloc: None,
        },
        &r.body,
    )
}

/// The first entry of the tree that is not canonical in the edition, and the first rule that it breaks, in the order of
/// `Rule`; `None` where the tree is canonical.
///
/// - `exact`: so the answer depends on the tree's texts and the edition alone.
/// - `none`: it is `None` exactly where `is_canonical` returns `true`.
/// - `first`: the entries before it are canonical, and it breaks that rule, and none before that one.
///
/// Whether a tree reads back once it is formatted is asked of its joined tree. The entries of that are those of the
/// tree without its junk, in their order: the entry is, in the tree, the one before which there are so many entries
/// that are no junk. The tree of a text without errors has no junk, so there both numbers are one.
///
/// Takes no memory. The time is that of a walk over the tree, and quadratic in the named arguments of one list.
pub fn first_uncanonical<'s, S: Slice<'s>>(
    tree: &Resource<S>,
    edition: Edition,
) -> Option<Uncanonical>
    ensures exact { result ≡ first_uncanonical edition (resource_view S.text tree.now) }
    ensures none { is_none result ≡ is_canonical edition (resource_view S.text tree.now) }
    ensures first { IfSome result (λ found. IsFirstBroken edition (resource_view S.text tree.now) found) }
{
    first_uncanonical_by(
        RuleCheck {
            edition,
            alloc: None,
        },
        tree,
    )
}

/// What `first_uncanonical` gives, in time near that of walks over the tree for every tree.
///
/// The names of an argument list of 32 named arguments and more are looked up in a table. Where a growth of it is
/// refused they are compared one by one.
pub fn first_uncanonical_with<'s, S: Slice<'s>>(
    alloc: Global,
    tree: &Resource<S>,
    edition: Edition,
) -> Option<Uncanonical>
    ensures exact { result ≡ first_uncanonical edition (resource_view S.text tree.now) }
    ensures none { is_none result ≡ is_canonical edition (resource_view S.text tree.now) }
    ensures first { IfSome result (λ found. IsFirstBroken edition (resource_view S.text tree.now) found) }
{
    first_uncanonical_by(
        RuleCheck {
            edition,
            alloc: Some(alloc),
        },
        tree,
    )
}

fn first_uncanonical_by<'s, S: Slice<'s>>(
    check: RuleCheck,
    tree: &Resource<S>,
) -> Option<Uncanonical>
    ensures exact { result ≡ first_uncanonical check.edition (resource_view S.text tree.now) }
    ensures none { is_none result ≡ is_canonical check.edition (resource_view S.text tree.now) }
    ensures first { IfSome result (λ found. IsFirstBroken check.edition (resource_view S.text tree.now) found) }
{
    broken_rules::first_uncanonical::<S, BySlice<'s>>(check, &tree.body)
}

/// The first rule of canonical trees that the entry breaks in the edition; `None` where it breaks none. A tree is
/// canonical where each of its entries is by itself, so this says a caller who has one entry at a time.
///
/// Takes no memory. The time is that of a walk over the entry, and quadratic in the named arguments of one list.
pub fn broken_rule<'s, S: Slice<'s>>(entry: &Entry<S>, edition: Edition) -> Option<Rule>
    ensures exact { result ≡ broken_rule edition (entry_view S.text entry.now) }
    ensures none { is_none result ≡ entry_obeys (canonical_rules edition) (entry_view S.text entry.now) }
{
    broken_rules::broken_rule::<S, BySlice<'s>>(
        RuleCheck {
            edition,
            alloc: None,
        },
        entry,
    )
}

/// What `broken_rule` gives, in time near that of walks over the entry for every entry, as `first_uncanonical_with`.
pub fn broken_rule_with<'s, S: Slice<'s>>(
    alloc: Global,
    entry: &Entry<S>,
    edition: Edition,
) -> Option<Rule>
    ensures exact { result ≡ broken_rule edition (entry_view S.text entry.now) }
    ensures none { is_none result ≡ entry_obeys (canonical_rules edition) (entry_view S.text entry.now) }
{
    let check = RuleCheck {
        edition,
        alloc: Some(alloc),
    };
    broken_rules::broken_rule::<S, BySlice<'s>>(check, entry)
}
