//! Keys of selects by plural categories that a language never chooses.

use crate::alike::{assert_holds, assert_same_text};
use crate::names::findings::{name_index, push_finding};
use fluent_syntax_names::{
    Kind, LANGUAGE_GROUPS, NameIndex, Severity, findings_in_language, local_findings_in_language,
    plural_categories_of, unchosen_keys,
};
use std::alloc::Global;
use std::test::Fail;

/// What is shown, a language, a file in it, and where the keys begin that are never chosen.
const ROWS: &[(&str, &str, &str, &str)] = table! {
    "no select", "en", "a = A\n", "";
    "all are chosen", "en", "a = { $n ->\n [one] X\n *[other] Y\n }\n", "";
    "one that Polish lacks", "pl", "a = { $n ->\n [two] X\n *[other] Y\n }\n", "14\n";
    "one that Slovenian has", "sl", "a = { $n ->\n [two] X\n *[other] Y\n }\n", "";
    "misspelt", "en", "a = { $n ->\n [on] X\n [one] Y\n *[other] Z\n }\n", "14\n";
    "a word next to `other` alone", "en", "a = { $n ->\n [on] X\n *[other] Y\n }\n", "";
    "next to numbers", "ja", "a = { $n ->\n [0] X\n [one] Y\n *[-1] Z\n }\n", "21\n";
    "a word next to one that English lacks", "en", "a = { $n ->\n [two] X\n [red] Y\n *[other] Z\n }\n", "23\n";
    "two words", "en", "a = { $n ->\n [two] X\n [red] Y\n *[blue] Z\n }\n", "";
    "one twice", "en", "a = { $n ->\n [two] X\n [two] Y\n *[other] Z\n }\n", "14\n23\n";
    "a select in another",
        "en", "a = { $n ->\n [one] { $m ->\n [two] X\n *[other] Y\n }\n *[red] Z\n }\n", "29\n54\n";
};

#[test]
fn keys_that_are_never_chosen(rt: HostRuntime) -> Result<(), Fail> {
    let alloc = rt.alloc();
    for (shows, language, text, expected) in ROWS {
        let categories = plural_categories_of(LANGUAGE_GROUPS.as_slice(), *language);
        let file = name_index(alloc, *text)?;
        let mut out = String::new(alloc);
        for key in &unchosen_keys(alloc, &file, categories.unwrap_or(&[]))? {
            let start = key.start;
            out.push_str(format!(in alloc; "{start}\n")?.as_str())?;
        }
        assert_same_text(alloc, *shows, out.as_str(), *expected)?;
    }
    Ok(())
}

#[test]
fn languages_by_name(rt: HostRuntime) -> Result<(), Fail> {
    let alloc = rt.alloc();
    for name in ["pl", "pl-PL", "pt_BR", "zh-Hans-CN", "fil"] {
        let categories = plural_categories_of(LANGUAGE_GROUPS.as_slice(), name);
        assert_holds(alloc, name, categories.is_some())?;
    }
    for name in ["", "p", "plx", "PL", "-pl", "x"] {
        let categories = plural_categories_of(LANGUAGE_GROUPS.as_slice(), name);
        assert_holds(alloc, name, categories.is_none())?;
    }
    Ok(())
}

#[test]
fn findings_in_a_language(rt: HostRuntime) -> Result<(), Fail> {
    let alloc = rt.alloc();
    let mut files = Vec::new(alloc);
    files.push(name_index(alloc, "a = { $n ->\n [two] X\n *[other] { b }\n }\n")?)?;
    files.push(name_index(alloc, "c = { $n ->\n [few] X\n *[zero] Y\n }\n")?)?;
    let polish = plural_categories_of(LANGUAGE_GROUPS.as_slice(), "pl");
    let expected =
        "undefined-message 0 b 33\nplural-category 0 two 14\nplural-category 1 zero 24\n";
    let said = findings_said(alloc, &files, polish)?;
    assert_same_text(alloc, "of Polish", said.as_str(), expected)?;
    let said = findings_said(alloc, &files, None)?;
    assert_same_text(
        alloc,
        "of none",
        said.as_str(),
        "undefined-message 0 b 33\n",
    )?;

    let mut out = String::new(alloc);
    for finding in &local_findings_in_language(alloc, &files[0], polish)? {
        push_finding(&mut out, &files, finding)?;
    }
    assert_same_text(
        alloc,
        "of a file",
        out.as_str(),
        "plural-category 0 two 14\n",
    )?;

    let kind = Kind::PluralCategory;
    let said = kind.sentence(alloc, "two", None)?;
    let expected = "no number chooses the variant `two` in this language";
    assert_same_text(alloc, "its sentence", said.as_str(), expected)?;
    assert_holds(alloc, "its severity", kind.severity() == Severity::Warning)
}

fn findings_said(
    alloc: Global,
    files: &[NameIndex<'_>],
    categories: Option<&'static [&'static str]>,
) -> Result<String, Fail> {
    let mut out = String::new(alloc);
    for finding in &findings_in_language(alloc, files, &[], categories)? {
        push_finding(&mut out, files, finding)?;
    }
    Ok(out)
}
