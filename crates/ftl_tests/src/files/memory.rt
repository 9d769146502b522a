//! Files in memory, read and replaced.

use fluent_syntax_tests::alike::{assert_holds, assert_same};
use ftl_files::{Memory, Store, replace_file};
use std::alloc::Global;
use std::io::ErrorKind;
use std::test::Fail;

/// Fails where the file has other bytes, or where there is one and none is wanted.
fn assert_content(
    alloc: Global,
    memory: &Memory,
    path: &str,
    text: Option<&str>,
) -> Result<(), Fail> {
    let expected = text.map(|text| text.as_bytes());
    assert_same(alloc, path, &memory.bytes_at(path), &expected)
}

/// A run that was killed has left a temporary file.
#[test]
fn replaces(rt: HostRuntime) -> Result<(), Fail> {
    let alloc = rt.alloc();
    let mut memory = Memory::new(alloc);
    memory.put("/d/a.ftl", b"old")?;
    memory.put("/d/b.ftl", b"other")?;
    memory.put("/d/.ftl-new-0", b"ne")?;
    replace_file(alloc, &mut memory, "/d/a.ftl", b"new")?;
    memory.replace("/d/b.ftl", b"another")?;
    assert_content(alloc, &memory, "/d/a.ftl", Some("new"))?;
    assert_content(alloc, &memory, "/d/b.ftl", Some("another"))?;
    assert_content(alloc, &memory, "/d/.ftl-new-0", Some("ne"))?;
    assert_content(alloc, &memory, "/d/.ftl-new-1", None)
}

#[test]
fn finds_no_file(rt: HostRuntime) -> Result<(), Fail> {
    let mut memory = Memory::new(rt.alloc());
    let Err(read) = memory.read("/d/a.ftl") else {
        return Err("a file was read that is not there".into());
    };
    assert_same(rt.alloc(), "a read", &read.kind(), &ErrorKind::NotFound)?;
    let replaced = memory.replace("/d/a.ftl", b"new");
    assert_holds(rt.alloc(), "no replacement", replaced.is_err())
}
