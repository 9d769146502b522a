//! To which messages the entries of a file refer, and where that leads.
ghost use Rattle.std.specs.Prelude.{◌≡◌, ◌+◌, ◌≤◌, ◌∷◌, ◌++◌, nat_le, true, [], length, IfOk, OnOk, option_map};
ghost use Rattle.fluent_syntax_names.specs.MessageReferences.{references_in, refers, reference_to, followed_limit};
ghost use Rattle.fluent_syntax_names.specs.Rows.{IsMessageReferences, IsSomeMessageReferences, AddsReferences, row_of};
ghost use Rattle.fluent_syntax_names.specs.Rows.{reachable_of};
ghost use Rattle.fluent_syntax_names.specs.Rows.{texts_of, texts_at};
ghost use Rattle.fluent_syntax_names.specs.QualifiedNames.{nameless};

use crate::definitions::{NAMELESS, message_name, owner_after};
use crate::mention::Mention;
use crate::named_lists::NamedLists;
use crate::qualified_names::{EntryName, qualified_name};
use fluent_syntax_tree::spans::Span;
use std::alloc::{AllocError, Global};

/// So many messages are followed at most.
const FOLLOWED_LIMIT: usize = 100;

/// To which messages the entries of a file refer.
#[derive(Drop)]
pub(crate) struct MessageReferences {
    /// For each entry, by its name, the messages that it refers to, in order, each as often as it does.
    pub(crate) targets: NamedLists<Vec<u8>>,
}

/// The references of a file to messages.
pub(crate) fn message_references_of(
    alloc: Global,
    text: &str,
    mentions: &[Mention<Span>],
) -> Result<MessageReferences, AllocError>
    ensures { IfOk result (IsMessageReferences (references_in text.now nameless mentions.now [])) }
{
    let mut message_references = MessageReferences {
        targets: NamedLists::new(alloc),
    };
    let mut owner = NAMELESS;
    for mention in mentions {
        message_references.add_mention(alloc, text, owner, mention)?;
        owner = owner_after(owner, mention);
    }
    Ok(message_references)
}

impl MessageReferences {
    /// The messages that the entry of that name leads to: those that it refers to, then those that these do, and so
    /// on, each as often as it is referred to. `None` where there are more than can be followed.
    pub(crate) fn reachable_messages(
        &self,
        alloc: Global,
        name: &[u8],
    ) -> Result<Option<Vec<&[u8]>>, AllocError>
        ensures { IfOk result (λ reachable.
            option_map (λ messages. texts_at messages.items) reachable ≡ reachable_of self.now name.now) }
    {
        let mut messages = Vec::new(alloc);
        if !add_followed(&mut messages, self.targets_of(name))? {
            return Ok(None);
        }
        let mut index = 0;
        while index < messages.len() {
            let targets = self.targets_of(messages[index]);
            if !add_followed(&mut messages, targets)? {
                return Ok(None);
            }
            index += 1;
        }
        Ok(Some(messages))
    }

    /// The messages that the entry of that name refers to.
    fn targets_of(&self, name: &[u8]) -> &[Vec<u8>]
        ensures { texts_of result.now ≡ row_of self.now name.now }
    {
        let Some(number) = self.targets.numbers.place_of(name) else {
            return &[];
        };
        match self.targets.lists.get(number) {
            Some(targets) => targets,
            None => &[],
        }
    }

    /// Adds the reference that the mention makes in the entry, if it refers to a message.
    fn add_mention(
        &mut self,
        alloc: Global,
        text: &str,
        owner: EntryName,
        mention: &Mention<Span>,
    ) -> Result<(), AllocError>
        requires { IsSomeMessageReferences self.old }
        ensures { OnOk result (AddsReferences self.old self.new (refers text.now owner mention.now)) }
    {
        match mention {
            Mention::MessageReference { name, .. } => {
                self.add_reference(alloc, text, owner, *name)
            }
            _ => Ok(()),
        }
    }

    fn add_reference(
        &mut self,
        alloc: Global,
        text: &str,
        owner: EntryName,
        message: Span,
    ) -> Result<(), AllocError>
        requires { IsSomeMessageReferences self.old }
        ensures { OnOk result (AddsReferences self.old self.new
            (λ tail. reference_to text.now owner message ∷ tail)) }
    {
        let from = qualified_name(alloc, text, owner)?;
        let to = qualified_name(alloc, text, message_name(message))?;
        let number = self.targets.number_for(alloc, from)?;
        self.targets.push(number, to)?;
        Ok(())
    }
}

/// Adds the names, if there are no more then than can be followed: whether it did. It looks at none of them before.
fn add_followed<'a>(names: &mut Vec<&'a [u8]>, more: &'a [Vec<u8>]) -> Result<bool, AllocError>
    requires { length names.old.items ≤ followed_limit }
    ensures fits { IfOk result (λ fits.
        fits ≡ nat_le (length names.old.items + length more.now) followed_limit) }
    ensures added { IfOk result (λ fits. fits ≡ true →
        texts_at names.new.items ≡ texts_at names.old.items ++ texts_of more.now) }
{
    if more.len() > FOLLOWED_LIMIT - names.len() {
        return Ok(false);
    }
    for name in more {
        names.push(name)?;
    }
    Ok(true)
}
