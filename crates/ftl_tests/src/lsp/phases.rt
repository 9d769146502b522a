//! What a session refuses, the phases after a message, and how it ends.

use fluent_syntax_tests::alike::{assert_holds, assert_same, assert_same_text};
use ftl_lsp::{Ending, ErrorCode, Method, Phase, RenameFault};
use std::alloc::Global;
use std::test::Fail;

/// A phase, a method, why a request for it is refused, and the phases after a request and after a notification.
type PhaseRow = (Phase, &'static str, Option<ErrorCode>, Phase, Phase);

const PHASES: [PhaseRow; 3] = [
    (
        Phase::Fresh,
        "initialize",
        None,
        Phase::Running,
        Phase::Fresh,
    ),
    (
        Phase::Running,
        "shutdown",
        None,
        Phase::ShutDown,
        Phase::Running,
    ),
    (
        Phase::ShutDown,
        "exit",
        Some(ErrorCode::InvalidRequest),
        Phase::ShutDown,
        Phase::Exited,
    ),
];

fn assert_phases_after(alloc: Global, row: &PhaseRow) -> Result<(), Fail> {
    let (phase, name, refusal, requested, notified) = row;
    let method = Method::from_name(*name);
    assert_holds(alloc, *name, phase.refusal(method) == *refusal)?;
    assert_holds(alloc, *name, phase.after_request(method) == *requested)?;
    assert_holds(alloc, *name, phase.after_notification(method) == *notified)
}

#[test]
fn phases(rt: HostRuntime) -> Result<(), Fail> {
    for row in &PHASES {
        assert_phases_after(rt.alloc(), row)?;
    }
    Ok(())
}

#[test]
fn endings_and_refusals(rt: HostRuntime) -> Result<(), Fail> {
    let alloc = rt.alloc();
    assert_holds(alloc, "no method", Method::from_name("Exit").is_none())?;
    assert_holds(alloc, "it goes on", Phase::Running.ending() == None)?;
    let left = Phase::Left.ending();
    assert_holds(alloc, "exit alone", left == Some(Ending::Left))?;
    assert_same(alloc, "input", &Ending::Input.status(), &3)?;
    assert_same_text(
        alloc,
        "input",
        Ending::Input.line(),
        "ftl lsp: input failed",
    )?;
    let taken = ErrorCode::Rename(RenameFault::Taken);
    assert_same(alloc, "a name that is taken", &taken.number(), &-32602)
}
