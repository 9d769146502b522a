//! `ftl`: checks, formats and converts Fluent Translation Lists, files and folders or standard input.
#![tactic(auto)]

mod additions;
mod args;
mod colors;
mod compare;
mod counterparts;
mod file_sets;
mod help;
mod ignored;
mod lint;
mod listed;
mod messages;
mod pairs;
mod paths;
mod project;
mod standard_input;

use crate::args::all_args;
use crate::compare::compare_paths;
use crate::help::page_of;
use crate::lint::lint_paths;
use crate::messages::{
    print_page, refuse_args, refuse_serving, report_unwritable_input, run_status,
};
use crate::paths::{answer_named, answer_paths};
use crate::project::{ProjectPaths, no_project, projects_of};
use crate::standard_input::answer_input;
use ftl::RunFault;
use ftl_args::{Change, Request, Task, Work, request_of};
use ftl_files::Output;
use std::process::ExitCode;

fn main(rt: HostRuntime) -> ExitCode {
    ExitCode::from(match all_args(&rt) {
        Ok(words) => run_args(&rt, words.as_slice()),
        Err(status) => status,
    })
}

/// Does what the words ask, the program's own name first; the exit status.
fn run_args(rt: &HostRuntime, words: &[String]) -> u8 {
    if let Some(page) = page_of(words) {
        return print_page(rt, page);
    }
    match request_of(rt.alloc(), words) {
        Ok(Request::Serve) => refuse_serving(rt),
        Ok(Request::Answer(work)) => answer(rt, work),
        Ok(Request::Lint(lint)) => lint_paths(rt, &lint),
        Ok(Request::Compare(compare)) => compare_paths(rt, &compare),
        Err(error) => refuse_args(rt, words, &error),
    }
}

/// Answers standard input, or the paths that are named, those of each project by themselves. A project speaks for
/// paths, and not for a tree as JSON.
fn answer(rt: &HostRuntime, work: Work<'_>) -> u8 {
    let on_input = work.paths.is_empty();
    match work.task {
        Task::Format(Change::Write | Change::Name | Change::Show) if on_input =>
            return report_unwritable_input(rt),
        Task::Format(Change::Write) if work.paths.contains(&"-") => return report_unwritable_input(
            rt,
        ),
        _ if on_input => return answer_alone(rt, &work),
        _ => (),
    }
    let found = match work.task {
        Task::FromJson(_) => no_project(rt, &work.paths),
        _ => projects_of(rt, &work.excluded, &work.paths),
    };
    match found {
        Ok(projects) => run_status(rt, answer_projects(rt, &work, &projects)),
        Err(status) => status,
    }
}

/// Answers the paths of one project after those of another; the greatest exit status.
fn answer_projects(
    rt: &HostRuntime,
    work: &Work<'_>,
    projects: &[ProjectPaths<'_>],
) -> Result<u8, RunFault> {
    let mut status = 0;
    for project in projects {
        status = status.max(answer_paths(rt, work, project)?);
    }
    Ok(status)
}

/// Answers standard input; as a file of its name where a form of files is asked for.
fn answer_alone(rt: &HostRuntime, work: &Work<'_>) -> u8 {
    match (work.task, work.options.output) {
        (Task::Check, Some(Output::Full | Output::Json | Output::Github))
        | (Task::SpannedJson | Task::FromJson(_), _) => run_status(rt, answer_named(rt, work)),
        _ => answer_input(rt, work),
    }
}
