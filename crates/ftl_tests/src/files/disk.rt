//! A folder listed and formatted in place, with calls of the system that fail: the old bytes are there or the new.

use crate::files::shelf::{Failing, Shelf, State};
use fluent_syntax::parser::Edition;
use fluent_syntax_tests::alike::{assert_holds, assert_same};
use ftl::Watched;
use ftl_files::{Disk, Excluded, list};
use ftl_project::{
    BlankLines, Form, FormatOptions, Reading, RewriteCounts, Streams, Tally, write_files,
};
use std::alloc::Global;
use std::test::Fail;

const OLD: &[u8] = b"a=1\nb   = { $x }\n";

const NEW: &[u8] = b"a = 1\nb = { $x }\n";

const BROKEN: &[u8] = b"a = 1\nbro ken\n";

const CLEAN: &[u8] = b"a = 1\n";

/// A file to be formatted, one with an error, one in its normal form, and one of another kind.
fn folder(alloc: Global, failing: Failing) -> Result<State, Fail> {
    let state = State::new(alloc, failing);
    state.put("/d/a.ftl", OLD)?;
    state.put("/d/b.ftl", BROKEN)?;
    state.put("/d/c.ftl", CLEAN)?;
    state.put("/d/d.txt", OLD)?;
    Ok(state)
}

/// Formats the folder in place: what the run met, with 3 for its status where the folder was not listed whole.
fn format(alloc: Global, state: &State) -> Result<Tally, Fail> {
    let rt = Shelf::new(state);
    let listing = list(&rt, "", "/d", &Excluded::new(alloc))?;
    let mut tally = Tally::new();
    if !listing.faults.is_empty() {
        tally.add_fault(3);
    }
    let options = FormatOptions {
        reading: Reading {
            edition: Edition::One,
            nesting: 10,
        },
        blank_lines: BlankLines::Normal,
    };
    let mut streams = Streams {
        out: &mut Watched::new(Vec::new(alloc)),
        err: &mut Watched::new(Vec::new(alloc)),
        form: Form::Full,
    };
    let files = listing.files.as_slice();
    match write_files(
        alloc,
        &mut Disk::of_regular_files(&rt),
        files,
        options,
        &mut tally,
        &mut RewriteCounts::new(),
        &mut streams,
    ) {
        Ok(()) => Ok(tally),
        Err(_) => Err("the run stopped".into()),
    }
}

/// Whether each file is as it was, but the one to be formatted, which may be new; and whether it is.
fn old_or_new(state: &State) -> Result<(bool, bool), Fail> {
    let one = state.get("/d/a.ftl")?;
    let is_old = one.as_slice() == OLD;
    let is_new = one.as_slice() == NEW;
    let others = state.get("/d/b.ftl")?.as_slice() == BROKEN
        && state.get("/d/c.ftl")?.as_slice() == CLEAN
        && state.get("/d/d.txt")?.as_slice() == OLD;
    Ok(((is_old || is_new) && others, is_new))
}

#[test]
fn formats_what_has_no_error(rt: HostRuntime) -> Result<(), Fail> {
    let alloc = rt.alloc();
    let state = folder(alloc, Failing::Never)?;
    let met = format(alloc, &state)?;
    assert_holds(alloc, "the new bytes", old_or_new(&state)? == (true, true))?;
    let expected = Tally {
        files: 3,
        with_problems: 1,
        errors: 1,
        warnings: 0,
        fault: 0,
    };
    assert_same(alloc, "what was met", &met, &expected)?;
    assert_holds(alloc, "no other file is left", state.count()? == 4)?;
    assert_holds(alloc, "the calls", state.calls() > 20 && state.calls() < 80)
}

/// The file is old or new, and status 0 or 1 means the new bytes alone. After one failure no other file is left.
fn assert_whole(alloc: Global, failing: Failing) -> Result<(), Fail> {
    let state = folder(alloc, failing)?;
    let met = format(alloc, &state)?;
    let (is_whole, is_new) = old_or_new(&state)?;
    assert_holds(alloc, "old or new", is_whole)?;
    let is_cleared = state.count()? == 4 || matches!(failing, Failing::From(_));
    assert_holds(alloc, "no other file is left", is_cleared)?;
    assert_holds(alloc, "the status", is_new || met.status() >= 3)
}

#[test]
fn calls_that_fail(rt: HostRuntime) -> Result<(), Fail> {
    for at in 0..80 {
        assert_whole(rt.alloc(), Failing::Once(at))?;
        assert_whole(rt.alloc(), Failing::From(at))?;
    }
    Ok(())
}
