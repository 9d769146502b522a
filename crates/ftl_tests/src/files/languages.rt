//! Which folder is a language, and which file is the original of another.

use fluent_syntax_tests::alike::assert_same;
use ftl_files::{folder_of_languages, language_of, original_of};
use std::test::Fail;

/// The folder of a project, its reference, and the folder in which each language has its own.
const FOLDERS: [(&str, &str, Option<&str>); 6] = [
    ("/app", "locales/en", Some("/app/locales")),
    ("/app", "./en/", Some("/app")),
    ("/app", "../l/en", Some("/l")),
    ("/app", "/en", Some("")),
    ("/app", "en.ftl", None),
    ("/app", "locales/en.ftl", None),
];

/// The folder of languages, a path, and the folder of its language.
const LANGUAGES: [(&str, &str, Option<&str>); 7] = [
    ("/app", "/app/de/menu.ftl", Some("/app/de")),
    ("/app", "/app/de/in/menu.ftl", Some("/app/de")),
    ("/app", "/app/é/menu.ftl", Some("/app/é")),
    ("/app", "/app/menu.ftl", None),
    ("/app", "/apple/de/menu.ftl", None),
    ("/app", "/other/de/menu.ftl", None),
    ("", "/de/menu.ftl", Some("/de")),
];

#[test]
fn languages_of_paths(rt: HostRuntime) -> Result<(), Fail> {
    for (folder, reference, languages) in FOLDERS {
        let found = folder_of_languages(rt.alloc(), folder, reference)?;
        assert_same(rt.alloc(), reference, &found.as_deref(), &languages)?;
    }
    for (languages, path, language) in LANGUAGES {
        assert_same(rt.alloc(), path, &language_of(languages, path), &language)?;
    }
    Ok(())
}

/// The folder of the reference and its name there, a path, and that of its original.
const ORIGINALS: [(&str, &str, &str, Option<&str>); 8] = [
    ("/app", "en", "/app/de/menu.ftl", Some("/app/en/menu.ftl")),
    ("/app", "en", "/app/de/a/b.ftl", Some("/app/en/a/b.ftl")),
    ("/app", "en.ftl", "/app/de.ftl", Some("/app/en.ftl")),
    ("/app", "en", "/app/en/menu.ftl", None),
    ("/app", "en.ftl", "/app/en.ftl", None),
    ("/app", "en", "/other/de/menu.ftl", None),
    ("/app", "en", "/apple/menu.ftl", None),
    ("", "en", "/de/menu.ftl", Some("/en/menu.ftl")),
];

#[test]
fn originals_of_paths(rt: HostRuntime) -> Result<(), Fail> {
    for row in &ORIGINALS {
        let (above, own, path, original) = *row;
        let found = original_of(rt.alloc(), above, own, path)?;
        assert_same(rt.alloc(), path, &found.as_deref(), &original)?;
    }
    Ok(())
}
