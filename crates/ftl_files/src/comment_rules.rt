//! What the comments of entries say is not reported.
ghost use Rattle.std.specs.Prelude.{◌≡◌, ◌++◌, ◌∷◌, ℕ, [], All, IfOk, OnOk, map};
ghost use Rattle.std.specs.List.{slice_split};
ghost use Rattle.std.specs.List.Sorted.{IsNonDecreasingBy};
ghost use Rattle.ftl_files.specs.CommentRules.{IsLastLine, IsRead, comment_words, definition_start, definition_starts};
ghost use Rattle.ftl_files.specs.CommentRules.{is_comment_line, is_left_out, is_part_left_out, is_separator, latest};
ghost use Rattle.ftl_files.specs.CommentRules.{line_words, rest_covers, start_of, word_covers};

use crate::kinds::ReportedKind;
use crate::patterns::bytes_match;
use fluent_syntax_names::{Mention, MissingPart, NameIndex, Part, Side};
use fluent_syntax_tree::spans::Span;
use std::alloc::{AllocError, Global};

/// What the comments of a file's entries say is not reported: `# ftl-ignore: undefined-term:-newtab-*, missing`.
#[derive(Drop)]
pub struct CommentRules<'a, 't> {
    pub name_index: &'a NameIndex<'t>,
    /// In the order of their names.
    entries: Vec<CommentedEntry<'t>>,
    ghost read: { All (IsRead name_index.now.text.now) entries.items },
    ghost sorted: { IsNonDecreasingBy start_of entries.items },
    ghost all: { (place : ℕ) → latest place (map start_of entries.items)
        ≡ latest place (definition_starts name_index.now.mentions.items) },
}

/// An entry, and the words of its comment that name what is not reported.
#[derive(Drop)]
struct CommentedEntry<'t> {
    /// Where its name begins.
    start: usize,
    words: Vec<&'t [u8]>,
}

impl<'a, 't> CommentRules<'a, 't> {
    /// What the comments of the file say. The time is that of a walk over it, and of sorting its entries.
    ///
    /// `AllocError`: a growth was refused.
    pub fn of(alloc: Global, name_index: &'a NameIndex<'t>) -> Result<Self, AllocError>
        ensures { IfOk result (λ rules. rules.name_index.now ≡ name_index.now) }
    {
        let mut entries = commented_entries(alloc, name_index)?;
        entries.sort_by_key(|entry| entry.start)?;
        Ok(CommentRules {
            name_index,
            entries,
        })
    }

    /// Whether the comment of the entry that the place is in leaves out what is of the kind and has the name, as it is
    /// shown. None does where there is no place.
    pub fn leave_out(&self, place: Option<Span>, kind: ReportedKind, name: &str) -> bool
        ensures { result ≡ is_left_out self.now.name_index.now place kind name.now }
    {
        match place {
            Some(place) => {
                let words = self.words_at(place.start);
                words.iter().any(|word| word_covers(kind, name, *word))
            }
            None => false,
        }
    }

    /// The words of the comment of the entry that the place is in.
    fn words_at(&self, place: usize) -> &[&'t [u8]]
        ensures { map (λ word. word.now) result.now ≡ comment_words self.now.name_index.now.text.now
            (latest place (definition_starts self.now.name_index.now.mentions.items)) }
    {
        let count = self.entries.partition_point(|entry| entry.start <= place);
        if count == 0 {
            return &[];
        }
        self.entries[count - 1].words.as_slice()
    }
}

/// Whether a comment leaves out what is reported of a part that the file of this side has and the other one lacks: that
/// of its entry in the translation; of an entry that the translation lacks, that of the reference's.
pub(crate) fn is_part_left_out(
    side: Side,
    own: &CommentRules<'_, '_>,
    other: &CommentRules<'_, '_>,
    missing: &MissingPart,
    kind: ReportedKind,
    name: &str,
) -> bool
    ensures { result ≡ is_part_left_out side own.now.name_index.now other.now.name_index.now missing.now kind name.now }
{
    match side {
        Side::Reference if !matches!(missing.part, Part::Entry) => {
            other.leave_out(missing.in_other, kind, name)
        }
        _ => own.leave_out(Some(missing.name), kind, name),
    }
}

/// The entries of the file, in its order.
fn commented_entries<'t>(
    alloc: Global,
    name_index: &NameIndex<'t>,
) -> Result<Vec<CommentedEntry<'t>>, AllocError>
    ensures read { IfOk result (λ entries. All (IsRead name_index.now.text.now) entries.items) }
    ensures all { IfOk result (λ entries.
        map start_of entries.items ≡ definition_starts name_index.now.mentions.items) }
{
    let text = name_index.text.as_bytes();
    let mut entries = Vec::new(alloc);
    for mention in &name_index.mentions {
        if let Some(start) = definition_start(mention) {
            add_entry(alloc, &mut entries, text, start)?;
        }
    }
    Ok(entries)
}

/// Where the name begins of the message or the term that the mention defines.
fn definition_start(mention: &Mention<Span>) -> Option<usize>
    ensures { result ≡ definition_start mention.now }
{
    match mention {
        Mention::Message { name, .. } | Mention::Term { name } => Some(name.start),
        _ => None,
    }
}

/// Adds the entry whose name begins there.
fn add_entry<'t>(
    alloc: Global,
    entries: &mut Vec<CommentedEntry<'t>>,
    text: &'t [u8],
    start: usize,
) -> Result<(), AllocError>
    ensures read { OnOk result (All (IsRead text.now) entries.old.items → All (IsRead text.now) entries.new.items) }
    ensures start { OnOk result (map start_of entries.new.items ≡ map start_of entries.old.items ++ start ∷ []) }
{
    let words = comment_words(alloc, text, start)?;
    entries.push(CommentedEntry { start, words })?;
    Ok(())
}

/// The words of the comment above the entry whose name begins there.
fn comment_words<'t>(
    alloc: Global,
    text: &'t [u8],
    start: usize,
) -> Result<Vec<&'t [u8]>, AllocError>
    ensures { IfOk result (λ words. map (λ word. word.now) words.items ≡ comment_words text.now start) }
{
    let mut words = Vec::new(alloc);
    let (mut above, _) = last_line(&text[..start.min(text.len())]);
    loop {
        let (before, line) = last_line(above);
        if !is_comment_line(line) {
            return Ok(words);
        }
        add_words(alloc, &mut words, line)?;
        above = before;
    }
}

/// What is before the last line and the LF in front of it, and that line.
fn last_line(text: &[u8]) -> (&[u8], &[u8])
    ensures { IsLastLine text.now result.0.now result.1.now }
{
    let mut start = text.len();
    while start > 0 && text[start - 1] != b'\n' {
        start -= 1;
    }
    (&text[..start.saturating_sub(1)], &text[start..])
}

fn is_comment_line(line: &[u8]) -> bool
    ensures { result ≡ is_comment_line line.now }
{
    matches!(line, [b'#'] | [b'#', b'\r'] | [b'#', b' ', ..])
}

/// Adds the words after the mark, if the line begins with it.
fn add_words<'t>(alloc: Global, words: &mut Vec<&'t [u8]>, line: &'t [u8]) -> Result<(), AllocError>
    ensures { OnOk result (map (λ word. word.now) words.new.items
        ≡ map (λ word. word.now) words.old.items ++ line_words line.now) }
{
    let mark = b"# ftl-ignore:".as_slice();
    if line.starts_with(mark) {
        let mut more = words_in(alloc, &line[mark.len()..])?;
        words.append(&mut more)?;
    }
    Ok(())
}

fn words_in<'t>(alloc: Global, text: &'t [u8]) -> Result<Vec<&'t [u8]>, AllocError>
    ensures { IfOk result (λ words.
        map (λ word. word.now) words.items ≡ slice_split is_separator text.now) }
{
    text.split(|byte| is_separator(*byte)).collect(alloc)
}

fn is_separator(byte: u8) -> bool
    ensures { result ≡ is_separator byte }
{
    matches!(byte, b' ' | b',' | b'\r')
}

/// Whether the word leaves out what is of the kind and has the name, as a rule of `ignore` does.
fn word_covers(kind: ReportedKind, name: &str, word: &[u8]) -> bool
    ensures { result ≡ word_covers kind name.now word.now }
{
    let kind = kind.name().as_bytes();
    word.starts_with(kind) && rest_covers(name, &word[kind.len()..])
}

/// Whether what follows a kind is nothing, or a `:` and a pattern of the name.
fn rest_covers(name: &str, rest: &[u8]) -> bool
    ensures { result ≡ rest_covers name.now rest.now }
{
    match rest {
        [] => true,
        [b':', pattern @ ..] => !pattern.is_empty() && bytes_match(pattern, name.as_bytes()),
        _ => false,
    }
}
