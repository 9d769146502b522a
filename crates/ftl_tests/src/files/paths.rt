//! Which paths are the same, which are passed over, and which folders they have in common.

use fluent_syntax_tests::alike::{assert_holds, assert_same, assert_same_text};
use ftl_files::{Excluded, SeenPaths, absolute_path, is_below, shared_folders};
use std::test::Fail;

/// A folder, a path, and that path from the root on.
const ABSOLUTE: [(&str, &str, &str); 9] = [
    ("/app/de", "..//en/./a.ftl", "/app/en/a.ftl"),
    ("/app", "a.ftl", "/app/a.ftl"),
    ("/app", "./a.ftl", "/app/a.ftl"),
    ("/app", "/b/a.ftl", "/b/a.ftl"),
    ("/app", ".", "/app"),
    ("/app", "../../..", ""),
    ("", "a", "/a"),
    ("/app/", "a//", "/app/a"),
    ("/äpp", "../ä", "/ä"),
];

#[test]
fn absolute_paths(rt: HostRuntime) -> Result<(), Fail> {
    for (folder, path, expected) in ABSOLUTE {
        let absolute = absolute_path(rt.alloc(), folder, path)?;
        assert_same_text(rt.alloc(), path, absolute.as_str(), expected)?;
    }
    Ok(())
}

#[test]
fn paths_named_twice(rt: HostRuntime) -> Result<(), Fail> {
    let alloc = rt.alloc();
    let mut seen = SeenPaths::new(alloc);
    assert_holds(alloc, "the first", seen.add(alloc, "/app", "a.ftl")?)?;
    let is_new = seen.add(alloc, "/app", "/app/de/../a.ftl")?;
    assert_holds(alloc, "the same", !is_new)?;
    assert_holds(alloc, "another", seen.add(alloc, "/app", "de/a.ftl")?)
}

/// What is excluded in `/app`, a file, and whether it is passed over where `/app` is listed.
const HIDDEN: [(&str, &str, bool); 4] = [
    ("none", "/app/.git/a.ftl", true),
    ("de", "/app/x/de/a.ftl", true),
    ("./de", "/app/x/de/a.ftl", false),
    ("app", "/app/x/a.ftl", false),
];

#[test]
fn paths_passed_over(rt: HostRuntime) -> Result<(), Fail> {
    for (exclusion, path, expected) in HIDDEN {
        let mut excluded = Excluded::new(rt.alloc());
        excluded.add(rt.alloc(), "/app", exclusion)?;
        let what = format!(in rt.alloc(); "{exclusion}: {path}")?;
        assert_holds(
            rt.alloc(),
            what.as_str(),
            excluded.hides("/app", path) == expected,
        )?;
    }
    Ok(())
}

#[test]
fn folders_of_paths(rt: HostRuntime) -> Result<(), Fail> {
    let alloc = rt.alloc();
    assert_holds(alloc, "below", is_below("/a", "/a/b/c"))?;
    assert_holds(alloc, "not below", !is_below("/a", "/ab"))?;
    assert_same(alloc, "shared", &shared_folders("/l/de", "/l/den/a"), &2)
}
