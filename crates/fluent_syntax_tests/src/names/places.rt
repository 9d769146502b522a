//! Where the other file has the entries of which it lacks parts, and how names are shown.

use crate::alike::{assert_same, assert_same_text};
use crate::names::findings::name_index;
use fluent_syntax::spans::Span;
use fluent_syntax_names::{Difference, Side, full_name, missing_parts, shown_name};
use std::alloc::Global;
use std::test::Fail;

/// What is shown, a file, one that defines an entry, and where the first junk begins that is this entry.
const ROWS: &[(&str, &str, &str, Option<usize>)] = table! {
    "nothing", "", "a = A\n", None;
    "no junk", "b = B\n", "a = A\n", None;
    "a message", "a A\n", "a = A\n", Some(0);
    "a term", "b = B\n-a A\n", "-a = A\n", Some(6);
    "a term, which is no message", "-a A\n", "a = A\n", None;
    "a message, which is no term", "a A\n", "-a = A\n", None;
    "a name that is longer", "a-b B\na1\na_\naa\n", "a = A\n", None;
    "a name that is shorter", "a A\n", "ab = A\n", None;
    "a byte of no name", "aé\n", "a = A\n", Some(0);
    "the end", "a", "a = A\n", Some(0);
    "the first of two", "b\na A\na {\n", "a = A\n", Some(2);
    "after a blank", " a A\n", "a = A\n", None;
    "inside of junk", "b a\n", "a = A\n", None;
    "a later entry", "a A\n", "\nb = B\n", None;
};

#[test]
fn entries_that_are_junk(rt: HostRuntime) -> Result<(), Fail> {
    let alloc = rt.alloc();
    for (shows, file, definition, expected) in ROWS {
        let file = name_index(alloc, *file)?;
        let definition = name_index(alloc, *definition)?;
        let missing = missing_parts(alloc, &definition, &file)?;
        let first = missing.first().ok_or("nothing is missing")?;
        assert_same(
            alloc,
            *shows,
            &first.in_other.map(|place| place.start),
            expected,
        )?;
        assert_same(alloc, *shows, &first.is_junk(), &expected.is_some())?;
    }
    Ok(())
}

/// A text, a range of it, and the name that is shown.
const SHOWN: &[(&str, usize, usize, &str)] = table! {
    "a = A\n", 0, 1, "a";
    "-a = A\n", 1, 2, "-a";
    "é = A\n", 1, 2, "";
    "a = A\n", 6, 7, "";
    "a = A\n", 1, 0, "";
};

#[test]
fn names_as_shown(rt: HostRuntime) -> Result<(), Fail> {
    let alloc = rt.alloc();
    for (text, start, end, expected) in SHOWN {
        let name = Span {
            start: *start,
            end: *end,
        };
        assert_same_text(alloc, *text, shown_name(*text, name), *expected)?;
    }
    Ok(())
}

/// A text, a range of it, and the name that sentences have.
const FULL: &[(&str, usize, usize, &str)] = table! {
    "a = { b.c }\n", 8, 9, "b.c";
    "a = { -b-1_.c -> }\n", 12, 13, "-b-1_.c";
    "a = { -b }\n", 7, 8, "-b";
    "a = A\n    .b = B\n", 11, 12, "b";
    "-a = A\n", 1, 2, "-a";
    "a.b", 2, 3, "a.b";
    ".b", 1, 2, "b";
    "a = A\n", 1, 0, "";
};

#[test]
fn names_in_sentences(rt: HostRuntime) -> Result<(), Fail> {
    let alloc = rt.alloc();
    for (text, start, end, expected) in FULL {
        let name = Span {
            start: *start,
            end: *end,
        };
        assert_same_text(alloc, *text, full_name(*text, name), *expected)?;
    }
    Ok(())
}

#[test]
fn sentences(rt: HostRuntime) -> Result<(), Fail> {
    let alloc = rt.alloc();
    let one = "-a = A\nb = B\n    .c = C\n";
    let missing = missing_parts(
        alloc,
        &name_index(alloc, one)?,
        &name_index(alloc, "-a A\nb = B\n")?,
    )?;
    let [junk, attribute] = missing.as_slice() else {
        return Err("other parts".into());
    };
    let here = Some("a.ftl:1:2");
    let said = junk.sentence(alloc, one, Side::Reference, Difference::Missing, here)?;
    let expected = "`-a` is junk here; the reference has it at a.ftl:1:2";
    assert_same_text(alloc, "junk", said.as_str(), expected)?;
    let difference = Difference::MissingAttribute;
    let said = attribute.sentence(alloc, one, Side::Reference, difference, Some("a.ftl:3:6"))?;
    let expected = "the attribute `c` of `b` is missing (a.ftl:3:6)";
    assert_same_text(alloc, "an attribute", said.as_str(), expected)?;
    let difference = Difference::ObsoleteAttribute;
    let said = attribute.sentence(alloc, one, Side::Other, difference, None)?;
    let expected = "the reference does not define the attribute `c` of `b`";
    assert_same_text(alloc, "one that is obsolete", said.as_str(), expected)
}
