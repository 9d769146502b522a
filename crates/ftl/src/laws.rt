//! Laws of the commands' texts that callers may rely on.

ghost use Rattle.ftl.specs.BlankLines.{KeepsAgain};
ghost use Rattle.ftl.specs.Formatted.{FormatsAgain};

/// The law of `Command::Format`, of a text and what `answer` gives for it, for that, and so on. The joined tree is the
/// tree that the text is read as, without its junk, and with each text that is one LF joined to the text before it, if
/// that does not end in LF.
///
/// Where the joined tree is canonical, the formatted text has no error and reads as the joined tree: it has the same
/// messages and terms in the same order. Formatted again it is the text of the joined tree, and that is the same text
/// where the first had no error. Formatting once more changes nothing.
pub fn formatting_is_idempotent(text: &[u8])
    ensures { FormatsAgain text.now }
{}

/// The law of `formatted_keeping`, of a text that has no error and is safe to write (`first_lossy_entry`), and of what
/// is kept of it.
///
/// That reads as the normal form does, as the joined tree or by edition two the tree itself; so it has the same
/// messages and terms in the same order. It has the same normal form, and keeping it again changes nothing.
pub fn keeping_is_idempotent(text: &[u8])
    ensures { KeepsAgain text.now }
{}
