//! The files of a folder that are read, and those that are left out.

use fluent_syntax_tests::alike::{assert_holds, assert_same};
use ftl_files::{Excluded, FILE_LIMIT, Folders, Memory, SourceFile, read_files};
use std::alloc::Global;
use std::test::Fail;

/// Files of two languages, and some that are not to be read.
fn some_files(alloc: Global) -> Result<Memory, Fail> {
    let mut files = Memory::new(alloc);
    files.put("/w/de/b.ftl", b"old = Old\n")?;
    files.put("/w/de/b.ftl", b"use = { menu }\n")?;
    files.put("/w/de/a.ftl", b"menu = Karte\n")?;
    files.put("/w/en/a.ftl", b"menu = Menu\n")?;
    files.put("/w/en/a.txt", b"a = A\n")?;
    files.put("/w/en/no.ftl", b"\xff")?;
    files.put("/x/a.ftl", b"menu = X\n")?;
    let long = vec![in alloc; b'#'; FILE_LIMIT + 1]?;
    files.put("/w/long.ftl", long.as_slice())?;
    Ok(files)
}

/// Whether the files have these paths and texts.
fn are_files(found: &[SourceFile], expected: &[(&str, &str)]) -> bool {
    found.len() == expected.len()
        && found.iter().zip(expected).all(|(file, row)| file.path.as_str() == row.0
            && file.text.as_str() == row.1)
}

const FOUND: [(&str, &str); 3] = [
    ("/w/de/a.ftl", "menu = Karte\n"),
    ("/w/de/b.ftl", "use = { menu }\n"),
    ("/w/en/a.ftl", "menu = Menu\n"),
];

#[test]
fn files_of_a_folder(rt: HostRuntime) -> Result<(), Fail> {
    let alloc = rt.alloc();
    let files = some_files(alloc)?;
    let all = Excluded::new(alloc);
    let listed = files.files_below(alloc, "/w", &all)?;
    assert_same(alloc, "listed", &listed.files.len(), &5)?;
    assert_holds(alloc, "all listed", listed.is_whole())?;
    let found = read_files(alloc, &files, "/w", &all)?;
    assert_holds(alloc, "found", are_files(&found.files, &FOUND))?;
    assert_holds(
        alloc,
        "two left out",
        found.left_out.len() == 2 && found.is_whole,
    )?;
    let whole = read_files(alloc, &files, "/w/de", &all)?;
    assert_holds(
        alloc,
        "none left out",
        whole.left_out.is_empty() && whole.is_whole,
    )?;
    let none = read_files(alloc, &files, "/v", &all)?;
    assert_holds(alloc, "none there", none.files.is_empty() && none.is_whole)
}
