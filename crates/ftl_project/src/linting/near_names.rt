//! Names that files define, of which one may be meant by a name that none defines.

use fluent_syntax::spans::Span;
use fluent_syntax_names::{Kind, Mention, NameIndex};
use ftl_files::nearest_name;
use std::alloc::{AllocError, Global};

/// The names of the messages and of the terms that files define.
#[derive(Drop)]
pub(crate) struct NearNames<'t> {
    messages: Vec<&'t str>,
    terms: Vec<&'t str>,
}

impl<'t> NearNames<'t> {
    /// Those of the files that say this of names.
    pub(crate) fn of(
        alloc: Global,
        name_indexes: &[NameIndex<'t>],
    ) -> Result<NearNames<'t>, AllocError> {
        let mut messages = Vec::new(alloc);
        let mut terms = Vec::new(alloc);
        for name_index in name_indexes {
            for mention in &name_index.mentions {
                match mention {
                    Mention::Message { name, .. } => messages.push(cut(name_index.text, *name))?,
                    Mention::Term { name } => terms.push(cut(name_index.text, *name))?,
                    _ => {}
                }
            }
        }
        Ok(NearNames { messages, terms })
    }

    /// The one that is spelled most like the name of the finding, where that says that no file defines it: both of a
    /// term with its `-`.
    pub(crate) fn meant(
        &self,
        alloc: Global,
        kind: Kind,
        name: &str,
    ) -> Result<Option<String>, AllocError> {
        let (mark, names) = match kind {
            Kind::UndefinedMessage => ("", &self.messages),
            Kind::UndefinedTerm => ("-", &self.terms),
            _ => return Ok(None),
        };
        match nearest_name(name.trim_start_matches('-'), names) {
            Some(near) => Ok(Some(format!(in alloc; "{mark}{near}")?)),
            None => Ok(None),
        }
    }
}

/// The bytes of a range of the text; none where it has no such range.
fn cut(text: &str, span: Span) -> &str {
    text.get(span.start..span.end).unwrap_or("")
}
