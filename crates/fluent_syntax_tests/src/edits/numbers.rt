//! Entries by their names.

use crate::alike::assert_holds;
use crate::made::lent_tree;
use fluent_syntax_edits::{EntryName, number_of};
use std::test::Fail;

/// A comment that is attached is a part of its entry; one by itself has a number, and so has junk.
const TEXT: &str = "# a\n\n# b\nb = c\n-b = d\ne@\nf = g\n    .h = i\nb = j\n";

const ROWS: [(EntryName, Option<usize>); 6] = [
    (EntryName::Message("b"), Some(1)),
    (EntryName::Term("b"), Some(2)),
    (EntryName::Message("f"), Some(4)),
    (EntryName::Message("h"), None),
    (EntryName::Term("f"), None),
    (EntryName::Message("e"), None),
];

#[test]
fn numbers(rt: HostRuntime) -> Result<(), Fail> {
    let alloc = rt.alloc();
    let tree = lent_tree(alloc, TEXT)?;
    for (name, number) in ROWS {
        let shown = format!(in alloc; "{name:?}")?;
        assert_holds(alloc, shown.as_str(), number_of(&tree, name) == number)?;
    }
    Ok(())
}
