//! Keys of selects by plural categories that a language never chooses.
ghost use Rattle.std.specs.Prelude.{◌≡◌, IfOk};
ghost use Rattle.fluent_syntax_names.specs.PluralCategories.{is_never_chosen, unchosen_key, unchosen_keys};
ghost use Rattle.fluent_syntax_names.specs.UnchosenKeys.{counts_by};

use crate::mention::Mention;
use crate::name_index::NameIndex;
use crate::plural_categories::is_among;
use crate::qualified_names::name_at;
use crate::select_counts::{KeyKind, SelectCounts, select_counts};
use fluent_syntax_tree::spans::Span;
use std::alloc::{AllocError, Global};

/// The keys that a language with these categories never chooses, in the order of the text: those of a select whose
/// other keys are all numbers or plural categories. Such a key is a category that the language has not, as `two` of
/// `one`, `two` and `other` in English; or it is none at all, and another key is one that is not `other`, as of `on`,
/// `few` and `other`.
///
/// Takes the memory of two tables of selects, and of the list; `AllocError` where there is none.
pub fn unchosen_keys<'x>(
    alloc: Global,
    file: &NameIndex<'x>,
    categories: &'x [&'x str],
) -> Result<Vec<Span>, AllocError>
    ensures { IfOk result (λ keys. keys.items ≡ unchosen_keys file.now categories.now) }
{
    let category_counts = select_counts(alloc, file.text, &file.mentions, KeyKind::Category)?;
    let stranger_counts = select_counts(alloc, file.text, &file.mentions, KeyKind::Stranger)?;
    let selects = Selects {
        text: file.text,
        categories,
        category_counts: &category_counts,
        stranger_counts: &stranger_counts,
    };
    file.mentions
        .iter()
        .filter_map(|mention| selects.unchosen_key(mention))
        .collect(alloc)
}

/// The selects of a text, and the plural categories of its language.
#[derive(Clone, Copy)]
struct Selects<'a> {
    text: &'a str,
    categories: &'a [&'a str],
    category_counts: &'a SelectCounts,
    stranger_counts: &'a SelectCounts,
}

impl Selects<'_> {
    /// The key, if the language never chooses it.
    fn unchosen_key(&self, mention: &Mention<Span>) -> Option<Span>
        ensures { result ≡ unchosen_key self.now.text.now self.now.categories.now (counts_by self.now) mention.now }
    {
        match mention {
            Mention::VariantKey { key, first } => {
                if self.is_never_chosen(name_at(self.text, *key), first.start) {
                    Some(*key)
                } else {
                    None
                }
            }
            _ => None,
        }
    }

    /// Whether the language never chooses the key, which is in this select.
    fn is_never_chosen(&self, key: &[u8], select: usize) -> bool
        ensures { result ≡ is_never_chosen self.now.categories.now (counts_by self.now KeyKind.Category select)
            (counts_by self.now KeyKind.Stranger select) key.now }
    {
        let strangers = self.stranger_counts.count(select);
        if KeyKind::Stranger.has(key) {
            strangers == 1 && self.category_counts.count(select) > 0
        } else {
            strangers == 0 && KeyKind::Category.has(key) && !is_among(self.categories, key)
        }
    }
}
