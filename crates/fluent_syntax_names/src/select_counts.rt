//! How many keys of a kind the selects of a file have.
ghost use Rattle.std.specs.Prelude.{◌≡◌, ℕ, IfOk, OnOk};
ghost use Rattle.fluent_syntax_names.specs.PluralCategories.{CountsOne, count_at, has_kind, is_category, is_number};
ghost use Rattle.fluent_syntax_names.specs.PluralCategories.{is_stranger, key_count, select_of};

use crate::mention::Mention;
use crate::qualified_names::name_at;
use fluent_syntax_tree::spans::Span;
use std::alloc::{AllocError, Global};
use std::collections::BTreeMap;

/// Kinds of keys. Numbers and `other` are of neither.
#[derive(Clone, Copy)]
pub(crate) enum KeyKind {
    /// A plural category that is not `other`.
    Category,
    /// What is no plural category.
    Stranger,
}

impl KeyKind {
    pub(crate) fn has(self, key: &[u8]) -> bool
        ensures { result ≡ has_kind self key.now }
    {
        match self {
            KeyKind::Category => is_category(key),
            KeyKind::Stranger => is_stranger(key),
        }
    }
}

/// How many keys of a kind each select has: by the place of its first key.
#[derive(Drop)]
pub(crate) struct SelectCounts {
    table: BTreeMap<usize, usize>,
}

impl SelectCounts {
    /// None.
    fn new(alloc: Global) -> Self
        ensures { (select : ℕ) → count_at result.table select ≡ 0 }
    {
        SelectCounts {
            table: BTreeMap::new(alloc),
        }
    }

    pub(crate) fn count(&self, select: usize) -> usize
        ensures { result ≡ count_at self.now.table select }
    {
        self.table.get(&select).copied().unwrap_or(0)
    }

    fn add(&mut self, select: usize) -> Result<(), AllocError>
        ensures { OnOk result (CountsOne (count_at self.old.table) (count_at self.new.table) select) }
    {
        let count = self.count(select).saturating_add(1);
        self.table.insert(select, count)?;
        Ok(())
    }
}

/// How many keys of the kind each select has.
pub(crate) fn select_counts(
    alloc: Global,
    text: &str,
    mentions: &[Mention<Span>],
    kind: KeyKind,
) -> Result<SelectCounts, AllocError>
    ensures { IfOk result (λ counts. (select : ℕ) → count_at counts.table select
        ≡ key_count text.now mentions.now kind select) }
{
    let mut counts = SelectCounts::new(alloc);
    for mention in mentions {
        if let Some(select) = select_of(text, kind, mention) {
            counts.add(select)?;
        }
    }
    Ok(counts)
}

/// Where the first key of the select begins that has this key, if it is of the kind.
fn select_of(text: &str, kind: KeyKind, mention: &Mention<Span>) -> Option<usize>
    ensures { result ≡ select_of text.now kind mention.now }
{
    match mention {
        Mention::VariantKey { key, first } => {
            if kind.has(name_at(text, *key)) {
                Some(first.start)
            } else {
                None
            }
        }
        _ => None,
    }
}

fn is_category(key: &[u8]) -> bool
    ensures { result ≡ is_category key.now }
{
    key == b"zero".as_slice()
        || key == b"one".as_slice()
        || key == b"two".as_slice()
        || key == b"few".as_slice()
        || key == b"many".as_slice()
}

fn is_stranger(key: &[u8]) -> bool
    ensures { result ≡ is_stranger key.now }
{
    !(is_number(key) || key == b"other".as_slice() || is_category(key))
}

fn is_number(key: &[u8]) -> bool
    ensures { result ≡ is_number key.now }
{
    match key.first() {
        Some(byte) => byte.is_ascii_digit() || *byte == b'-',
        None => false,
    }
}
