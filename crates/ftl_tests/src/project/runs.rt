//! A check whose output fails, and how a run is summed up.

use crate::engine::ends::Narrow;
use fluent_syntax::parser::Edition;
use fluent_syntax_tests::alike::{assert_holds, assert_same_text};
use ftl::{RunFault, Watched};
use ftl_files::Memory;
use ftl_project::{
    CheckTask, Form, Reading, Streams, Tally, answer_files, check_summary, format_summary,
};
use std::alloc::Global;
use std::test::Fail;

/// How a check of a file with an error ends, and what it has written.
fn checked(
    alloc: Global,
    path: &str,
    out: Narrow,
    err: Narrow,
) -> Result<(Result<(), RunFault>, Vec<u8>), Fail> {
    let mut memory = Memory::new(alloc);
    memory.put("/d/a.ftl", b"a = b\nbro ken\n")?;
    let mut files = Vec::new(alloc);
    files.push(String::from_str(alloc, path)?)?;
    let reading = Reading {
        edition: Edition::One,
        nesting: 2,
    };
    let mut out = Watched::new(out);
    let mut streams = Streams {
        out: &mut out,
        err: &mut Watched::new(err),
        form: Form::Lines,
    };
    let task = CheckTask {
        reading,
        form: Form::Lines,
    };
    let ended = answer_files(
        alloc,
        &task,
        &mut memory,
        files.as_slice(),
        &mut Tally::new(),
        &mut streams,
    );
    Ok((ended, out.into_inner().into_taken()))
}

#[test]
fn a_check_whose_output_fails(rt: HostRuntime) -> Result<(), Fail> {
    let alloc = rt.alloc();
    let wide = Narrow::wide(alloc);
    let (ended, error_output) = checked(alloc, "/d/a.ftl", wide, Narrow::closed(alloc))?;
    assert_holds(alloc, "an end", ended == Ok(()))?;
    let error_output = str::from_utf8(error_output.as_slice())?;
    assert_same_text(
        alloc,
        "an error",
        error_output,
        "/d/a.ftl:2:5: ExpectedToken\n",
    )?;
    let closed = Narrow::closed(alloc);
    let (ended, _) = checked(alloc, "/d/a.ftl", closed, Narrow::wide(alloc))?;
    assert_holds(alloc, "the report", ended == Err(RunFault::Output))?;
    let wide = Narrow::wide(alloc);
    let (ended, _) = checked(alloc, "/d/none.ftl", wide, Narrow::closed(alloc))?;
    assert_holds(alloc, "a note", ended == Err(RunFault::Output))
}

#[test]
fn summaries(rt: HostRuntime) -> Result<(), Fail> {
    let alloc = rt.alloc();
    let tally = Tally {
        files: 57,
        with_problems: 2,
        errors: 3,
        warnings: 1,
        fault: 6,
    };
    let line = check_summary(alloc, &tally)?;
    let checked = "3 errors in 2 of 57 files, 1 warning\n";
    assert_same_text(alloc, "a check", line.as_str(), checked)?;
    let line = format_summary(alloc, &tally)?;
    let formatted = "2 of 57 files not in normal form\n";
    assert_same_text(alloc, "a formatting", line.as_str(), formatted)
}
