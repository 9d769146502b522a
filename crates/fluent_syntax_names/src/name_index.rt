//! A text with all that it says of names.
ghost use Rattle.std.specs.Prelude.{◌≡◌, ◌++◌, [], OnOk, IfOk, map};
ghost use Rattle.fluent_syntax_tree.specs.Entry.{entry_map};
ghost use Rattle.fluent_syntax_tree.specs.View.{entry_view};
ghost use Rattle.fluent_syntax_names.specs.Growing.{Adds};
ghost use Rattle.fluent_syntax_names.specs.Mentions.{body_mentions, entry_mentions};
ghost use Rattle.fluent_syntax_names.specs.Mentions.{mention_map, shifted_span};

use crate::entries::{add_entry, mentions};
use crate::mention::Mention;
use crate::shifted_mentions::shifted_mention;
use fluent_syntax_tree::ast::Entry;
use fluent_syntax_tree::spans::Span;
use std::alloc::{AllocError, Global};

/// A text with all that its entries say of names, in the order of the text. The tree is not needed any more.
#[derive(Debug, Drop)]
pub struct NameIndex<'a> {
    pub text: &'a str,
    pub mentions: Vec<Mention<Span>>,
}

impl<'a> NameIndex<'a> {
    /// The name index of a text of which no entry was added yet.
    pub fn new(alloc: Global, text: &'a str) -> Self
        ensures text { result.text.now ≡ text.now }
        ensures mentions { result.mentions.items ≡ [] }
    {
        NameIndex {
            text,
            mentions: Vec::new(alloc),
        }
    }

    /// Adds what an entry says of names, whose ranges are counted from `base`, where reading it began.
    ///
    /// Takes the memory of the mentions; `AllocError` where there is none.
    pub fn add(&mut self, alloc: Global, base: usize, entry: &Entry<Span>) -> Result<(), AllocError>
        ensures text { self.new.text.now ≡ self.old.text.now }
        ensures mentions { OnOk result (Adds self.old.mentions.items self.new.mentions.items
            (entry_mentions (entry_map (shifted_span base) (entry_view (λ x. x) entry.now)))) }
    {
        let said = mentions(alloc, entry)?;
        add_shifted(&mut self.mentions, base, &said)
    }
}

/// Adds the mentions, whose ranges are counted from `base`.
fn add_shifted(
    list: &mut Vec<Mention<Span>>,
    base: usize,
    said: &[Mention<Span>],
) -> Result<(), AllocError>
    ensures { OnOk result (Adds list.old.items list.new.items
        (λ tail. map (mention_map (shifted_span base)) said.now ++ tail)) }
{
    for mention in said {
        list.push(shifted_mention(base, mention)?)?;
    }
    Ok(())
}

/// The name index of a text that was read as these entries.
///
/// Takes the memory of the mentions; `AllocError` where there is none. The time is that of a walk over the entries.
pub fn name_index_of<'a>(
    alloc: Global,
    text: &'a str,
    body: &[Entry<Span>],
) -> Result<NameIndex<'a>, AllocError>
    ensures text { IfOk result (λ name_index. name_index.text.now ≡ text.now) }
    ensures mentions { IfOk result (λ name_index.
        name_index.mentions.items ≡ body_mentions (map (entry_view (λ x. x)) body.now) []) }
{
    let mut mentions = Vec::new(alloc);
    add_body(&mut mentions, body)?;
    Ok(NameIndex { text, mentions })
}

fn add_body(list: &mut Vec<Mention<Span>>, body: &[Entry<Span>]) -> Result<(), AllocError>
    ensures { OnOk result (Adds list.old.items list.new.items (body_mentions (map (entry_view (λ x. x)) body.now))) }
{
    for entry in body {
        add_entry(list, entry)?;
    }
    Ok(())
}
