//! What an `ftl.toml` says, and what is shown of one that is refused.

use fluent_syntax::parser::Edition;
use fluent_syntax_names::{Difference, Kind};
use fluent_syntax_tests::alike::{assert_holds, assert_same, assert_same_text};
use ftl_files::{BlankLines, Color, Output, ReportedKind, is_ignored, settings_of};
use std::alloc::Global;
use std::test::Fail;

const EACH: &str =
    "reference = \"l10n/en-US\"\nignore = ['obsolete', \"missing-file\", 'undefined-term:-new*']\n\
    exclude = ['locales/old']\nwarn = ['missing']\ndeny = ['obsolete', 'variant-twice']\nedition = 2\n\
    output = 'lines'\nnesting = 4294967295\ncolor = 'never'\nblank-lines = 'keep'\n";

/// The kinds and the names of what is ignored.
const RULES: [(ReportedKind, &str); 3] = [
    (ReportedKind::Difference(Difference::Obsolete), ""),
    (ReportedKind::MissingFile, ""),
    (ReportedKind::Finding(Kind::UndefinedTerm), "-new*"),
];

const WARNED: [ReportedKind; 1] = [ReportedKind::Difference(Difference::Missing)];

const DENIED: [ReportedKind; 2] = [
    ReportedKind::Difference(Difference::Obsolete),
    ReportedKind::Finding(Kind::VariantTwice),
];

/// Patterns, with a name, and whether they are it.
const PATTERNS: [(&str, &str, bool); 13] = [
    ("-brand", "-brand", true),
    ("-brand", "-brands", false),
    ("-newtab-*", "-newtab-", true),
    ("-newtab-*", "-newtab", false),
    ("*", "title", true),
    ("*title", "title", true),
    ("*title", "title-2", false),
    ("t*e", "te", true),
    ("t*e", "t", false),
    ("a*ab", "aab", true),
    ("*aab*b", "aaabb", true),
    ("*ab*ab*", "aabb", false),
    ("**b", "b", true),
];

#[test]
fn settings(rt: HostRuntime) -> Result<(), Fail> {
    let alloc = rt.alloc();
    let Ok(settings) = settings_of(alloc, EACH) else {
        return Err("refused".into());
    };
    let reference = settings.reference.as_deref();
    assert_same(alloc, "reference", &reference, &Some("l10n/en-US"))?;
    assert_same(alloc, "ignore", &settings.ignored.len(), &RULES.len())?;
    for (rule, (kind, name)) in settings.ignored.iter().zip(RULES) {
        assert_holds(alloc, name, rule.kind == kind && rule.name.as_str() == name)?;
    }
    assert_holds(
        alloc,
        "warn and deny",
        settings.warned.as_slice() == WARNED.as_slice()
            && settings.denied.as_slice() == DENIED.as_slice(),
    )?;
    assert_same(alloc, "exclude", &settings.excluded.len(), &1)?;
    assert_holds(alloc, "edition", settings.edition == Some(Edition::Two))?;
    assert_holds(alloc, "output", settings.output == Some(Output::Lines))?;
    assert_same(alloc, "nesting", &settings.nesting, &Some(4294967295))?;
    assert_holds(alloc, "color", settings.color == Some(Color::Never))?;
    assert_holds(
        alloc,
        "blank lines",
        settings.blank_lines == Some(BlankLines::Keep),
    )
}

#[test]
fn ignored_names(rt: HostRuntime) -> Result<(), Fail> {
    let alloc = rt.alloc();
    let kind = ReportedKind::Finding(Kind::UndefinedTerm);
    for (pattern, name, is_it) in PATTERNS {
        let text = format!(in alloc; "ignore = ['undefined-term:{pattern}']")?;
        let Ok(settings) = settings_of(alloc, text.as_str()) else {
            return Err("refused".into());
        };
        assert_same(
            alloc,
            name,
            &is_ignored(&settings.ignored, kind, name),
            &is_it,
        )?;
        assert_holds(
            alloc,
            name,
            !is_ignored(&settings.ignored, ReportedKind::MissingFile, name),
        )?;
    }
    Ok(())
}

const OF_FOLDERS: &str = "[folders.\"l10n/old\"]\nignore = ['obsolete', 'undefined-term:-x-*']\n\
    [folders.empty]\n[folders.'\u{e9}']\nignore = []\n";

/// The folders, each with how many rules it has.
const FOLDERS: [(&str, usize); 3] = [("empty", 0), ("l10n/old", 2), ("\u{e9}", 0)];

#[test]
fn folders(rt: HostRuntime) -> Result<(), Fail> {
    let alloc = rt.alloc();
    let Ok(settings) = settings_of(alloc, OF_FOLDERS) else {
        return Err("refused".into());
    };
    assert_same(alloc, "folders", &settings.folders.len(), &FOLDERS.len())?;
    assert_holds(alloc, "ignore", settings.ignored.is_empty())?;
    for (rules, (folder, number)) in settings.folders.iter().zip(FOLDERS) {
        assert_same_text(alloc, folder, rules.folder.as_str(), folder)?;
        assert_same(alloc, folder, &rules.ignored.len(), &number)?;
        let kind = ReportedKind::Finding(Kind::UndefinedTerm);
        let is_it = is_ignored(&rules.ignored, kind, "-x-term");
        assert_holds(alloc, folder, is_it == (number == 2))?;
    }
    Ok(())
}

fn assert_refused(alloc: Global, text: &str, sentence: &str) -> Result<(), Fail> {
    match settings_of(alloc, text) {
        Err(fault) => {
            let shown = format!(in alloc; "{fault}")?;
            assert_same_text(alloc, text, shown.as_str(), sentence)
        }
        Ok(_) => assert_holds(alloc, text, false),
    }
}

#[test]
fn refused_settings(rt: HostRuntime) -> Result<(), Fail> {
    assert_refused(rt.alloc(), "edition = 3\n", "`edition` wants 1 or 2")?;
    assert_refused(
        rt.alloc(),
        "warn = ['missing', 'obsolete']\ndeny = ['obsolete']\n",
        "`warn` and `deny` both have `obsolete`",
    )?;
    assert_refused(
        rt.alloc(),
        "[folders]\nold = ['obsolete']\n",
        "`folders` wants a table for each folder, as [folders.\"locales/old\"]",
    )?;
    assert_refused(
        rt.alloc(),
        "[folders.old]\nexclude = ['a']\n",
        "no setting of a folder is called `exclude`",
    )
}
