//! What one file says and another lacks.

use crate::alike::{assert_same, assert_same_text};
use crate::names::findings::name_index;
use fluent_syntax_names::{Difference, Part, Severity, Side, missing_parts};
use std::alloc::Global;
use std::test::Fail;

fn mark(part: Part) -> &'static str {
    match part {
        Part::Entry => "",
        Part::Value => "=",
        Part::Attribute => ".",
        Part::Reference => ">",
        Part::Variable => "$",
        Part::Function => "(",
    }
}

/// What is lacked, as the table has it.
fn missing_parts_shown(alloc: Global, one: &str, other: &str) -> Result<String, Fail> {
    let one = name_index(alloc, one)?;
    let other = name_index(alloc, other)?;
    let mut out = String::new(alloc);
    for missing in &missing_parts(alloc, &one, &other)? {
        let mark = mark(missing.part);
        let (name, entry) = (missing.name.start, missing.entry.start);
        out.push_str(format!(in alloc; "{mark}{name} of {entry}")?.as_str())?;
        if let Some(place) = missing.in_other {
            let start = place.start;
            out.push_str(format!(in alloc; " at {start}")?.as_str())?;
        }
        out.push('\n')?;
    }
    Ok(out)
}

#[test]
fn two_files(rt: HostRuntime) -> Result<(), Fail> {
    let alloc = rt.alloc();
    let one = "a = { $b } { -c }\n    .t = T\nd =\n    .e = E\nf = F\n";
    let other = "a = A\nd = D\n    .e = E\n";
    let out = missing_parts_shown(alloc, one, other)?;
    let expected = "$7 of 0 at 0\n>14 of 0 at 0\n.23 of 0 at 0\n44 of 44\n";
    assert_same_text(alloc, "one", out.as_str(), expected)?;
    let out = missing_parts_shown(alloc, other, one)?;
    assert_same_text(alloc, "other", out.as_str(), "=6 of 6 at 29\n")?;
    let out = missing_parts_shown(alloc, "a = A\n    .t = T\n", "a {\na = A\na = B\n")?;
    assert_same_text(alloc, "defined and junk", out.as_str(), ".11 of 0 at 4\n")?;
    let out = missing_parts_shown(alloc, "a = { F() } { NUMBER(1) }\n", "a = A\n")?;
    assert_same_text(alloc, "functions", out.as_str(), "(6 of 0 at 0\n")
}

/// A part that one side says and the other lacks, and the difference that is reported of it.
const DIFFERENCES: &[(Side, Part, Option<Difference>)] = table! {
    Side::Reference, Part::Entry, Some(Difference::Missing);
    Side::Reference, Part::Value, Some(Difference::MissingValue);
    Side::Reference, Part::Attribute, Some(Difference::MissingAttribute);
    Side::Reference, Part::Reference, Some(Difference::MissingReference);
    Side::Reference, Part::Variable, None;
    Side::Reference, Part::Function, None;
    Side::Other, Part::Entry, Some(Difference::Obsolete);
    Side::Other, Part::Value, Some(Difference::ObsoleteValue);
    Side::Other, Part::Attribute, Some(Difference::ObsoleteAttribute);
    Side::Other, Part::Reference, Some(Difference::ObsoleteReference);
    Side::Other, Part::Variable, Some(Difference::UnknownVariable);
    Side::Other, Part::Function, Some(Difference::UnknownFunction);
};

/// A difference, how grave it is, its name, and what is said of it, in the entry `e` with the name `a`.
const SAID: &[(Difference, Severity, &str, &str)] = table! {
    Difference::Missing, Severity::Error, "missing", "`e` is missing";
    Difference::MissingValue, Severity::Error, "missing-value", "the value of `e` is missing";
    Difference::MissingAttribute, Severity::Error, "missing-attribute", "the attribute `a` of `e` is missing";
    Difference::MissingReference, Severity::Warning, "missing-reference", "`e` does not refer to `a`";
    Difference::Obsolete, Severity::Warning, "obsolete", "the reference does not define `e`";
    Difference::ObsoleteValue, Severity::Warning, "obsolete-value", "the reference gives `e` no value";
    Difference::ObsoleteAttribute, Severity::Warning, "obsolete-attribute",
        "the reference does not define the attribute `a` of `e`";
    Difference::ObsoleteReference, Severity::Warning, "obsolete-reference",
        "the reference's `e` does not refer to `a`";
    Difference::UnknownVariable, Severity::Error, "unknown-variable", "the reference does not use `$a`";
    Difference::UnknownFunction, Severity::Warning, "unknown-function", "the reference does not call `a`";
};

#[test]
fn differences(rt: HostRuntime) -> Result<(), Fail> {
    let alloc = rt.alloc();
    for (side, part, expected) in DIFFERENCES {
        assert_same(alloc, mark(*part), &side.difference(*part), expected)?;
    }
    for (difference, severity, name, expected) in SAID {
        assert_same(alloc, *name, &difference.severity(), severity)?;
        assert_same_text(alloc, *name, difference.name(), *name)?;
        let said = difference.sentence(alloc, "e", "a")?;
        assert_same_text(alloc, *name, said.as_str(), *expected)?;
    }
    Ok(())
}

#[test]
fn junk(rt: HostRuntime) -> Result<(), Fail> {
    let alloc = rt.alloc();
    let here = Side::Reference.junk_sentence(alloc, "-e", "en/a.ftl:3:2")?;
    let expected = "`-e` is junk here; the reference has it at en/a.ftl:3:2";
    assert_same_text(alloc, "of the translation", here.as_str(), expected)?;
    let there = Side::Other.junk_sentence(alloc, "-e", "en/a.ftl:3:1")?;
    let expected = "`-e` is junk in the reference (en/a.ftl:3:1)";
    assert_same_text(alloc, "of the reference", there.as_str(), expected)
}
