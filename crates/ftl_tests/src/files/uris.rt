//! URIs and the paths that they name.

use fluent_syntax_tests::alike::{assert_same, assert_same_text};
use ftl_files::{path_of_uri, uri_of_path};
use std::test::Fail;

/// A URI, and the path that it names.
type UriRow = (&'static str, Option<&'static str>);

const URIS: [UriRow; 4] = [
    ("file:///a%20b/%C3%A9.ftl", Some("/a b/é.ftl")),
    // no escape
    ("file:///%zz", Some("/%zz")),
    ("file:///%ff", None),
    ("file://host/a", None),
];

#[test]
fn paths_of_uris(rt: HostRuntime) -> Result<(), Fail> {
    for row in &URIS {
        let (uri, path) = row;
        let found = path_of_uri(rt.alloc(), *uri)?;
        let found = found.as_ref().map(|path| path.as_str());
        assert_same(rt.alloc(), *uri, &found, path)?;
    }
    Ok(())
}

#[test]
fn uris_of_paths(rt: HostRuntime) -> Result<(), Fail> {
    let found = uri_of_path(rt.alloc(), "/a b/é.ftl")?;
    assert_same_text(
        rt.alloc(),
        "a path",
        found.as_str(),
        "file:///a%20b/%C3%A9.ftl",
    )
}
