//! What is written reads back, and what is formatted is formatted again.

use fluent_syntax::ast::Resource;
use fluent_syntax::laws::{is_canonical, joined, reparse, same_texts};
use fluent_syntax::parser::{Edition, parse_edition, recovered};
use fluent_syntax::serializer::serialize;
use ftl::laws::formatting_is_idempotent;
use ftl::{Command, Outcome, answer};
use std::alloc::{AllocError, Global};

/// How the laws of the round trip hold of texts, by one edition of the grammar.
#[derive(Clone, Copy)]
pub(crate) struct RoundTrips {
    edition: Edition,
    /// How many texts have a joined tree that is canonical, which the laws speak of.
    pub(crate) canonical: u64,
    /// For how many texts that does not hold.
    pub(crate) broken: u64,
}

impl RoundTrips {
    /// Of no texts yet.
    pub(crate) fn new(edition: Edition) -> RoundTrips {
        RoundTrips {
            edition,
            canonical: 0,
            broken: 0,
        }
    }

    /// Counts a text; whether a law does not hold of it, or it is read back although its joined tree is not canonical.
    pub(crate) fn breaks_a_law(&mut self, alloc: Global, text: &str) -> anyhow::Result<bool> {
        formatting_is_idempotent(text.as_bytes());
        let (tree, is_clean) = tree_of(alloc, text, self.edition)?;
        let whole = joined(alloc, &tree)?;
        let canonical = is_canonical(&whole, self.edition);
        let holds = if canonical {
            reads_back(alloc, &tree, &whole, self.edition)?
                && formats(alloc, text, is_clean, &whole, self.edition)?
        } else {
            !reads_as(alloc, &whole, &whole, self.edition)?
        };
        self.canonical = self.canonical.saturating_add(u64::from(canonical));
        self.broken = self.broken.saturating_add(u64::from(!holds));
        Ok(!holds)
    }
}

/// The tree of the text, and whether the text has no error.
fn tree_of(
    alloc: Global,
    text: &str,
    edition: Edition,
) -> Result<(Resource<String>, bool), AllocError> {
    let source = String::from_str(alloc, text)?;
    let (tree, errors) = recovered(alloc, parse_edition(alloc, source, edition))?;
    Ok((tree, errors.is_empty()))
}

/// Whether the tree is written as a text without errors that reads as the other.
pub(crate) fn reads_as(
    alloc: Global,
    tree: &Resource<String>,
    other: &Resource<String>,
    edition: Edition,
) -> Result<bool, AllocError> {
    let (back, is_clean) = tree_of(alloc, serialize(alloc, tree)?.as_str(), edition)?;
    Ok(is_clean && same_texts(&back, other))
}

/// Whether the tree and its joined tree, which is canonical, both read back as the joined tree, which is the tree
/// itself where that is canonical.
fn reads_back(
    alloc: Global,
    tree: &Resource<String>,
    whole: &Resource<String>,
    edition: Edition,
) -> Result<bool, AllocError> {
    let stays = !is_canonical(tree, edition) || same_texts(tree, whole);
    let is_reparsed = edition != Edition::One || reparses(alloc, tree, whole);
    let is_read = reads_as(alloc, tree, whole, edition)? && reads_as(alloc, whole, whole, edition)?;
    Ok(stays && is_reparsed && is_read)
}

/// Whether `reparse` answers `Ok` of the joined tree, for the tree and for the joined tree.
fn reparses(alloc: Global, tree: &Resource<String>, whole: &Resource<String>) -> bool {
    match (reparse(alloc, tree), reparse(alloc, whole)) {
        (Ok(back), Ok(again)) => same_texts(&back, whole) && same_texts(&again, whole),
        _ => false,
    }
}

/// The text as a command formats it, and whether it has no error.
fn formatted_text(alloc: Global, command: Command, text: &str) -> anyhow::Result<(String, bool)> {
    match answer(alloc, command, text.as_bytes()) {
        Ok((formatted, outcome)) => Ok((formatted, outcome == Outcome::Clean)),
        Err(fault) => anyhow::bail!("{}", fault.line()),
    }
}

/// Whether the formatted text has no error, formatted again is the text of the joined tree, and the same text where the
/// first had no error, and from then on stays as it is.
fn formats(
    alloc: Global,
    text: &str,
    is_clean: bool,
    whole: &Resource<String>,
    edition: Edition,
) -> anyhow::Result<bool> {
    let command = match edition {
        Edition::One => Command::Format,
        Edition::Two => Command::FormatTwo,
    };
    let (once, _) = formatted_text(alloc, command, text)?;
    let (twice, is_once_clean) = formatted_text(alloc, command, once.as_str())?;
    let (again, is_twice_clean) = formatted_text(alloc, command, twice.as_str())?;
    let settles = twice == serialize(alloc, whole)? && again == twice;
    Ok(is_once_clean && is_twice_clean && settles && (!is_clean || once == twice))
}
