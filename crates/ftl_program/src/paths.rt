//! Files and folders, answered each by its name.

use crate::colors::form_over_paths;
use crate::listed::NamedFiles;
use crate::messages::end_run;
use crate::project::ProjectPaths;
use crate::standard_input::{all_input, print_terminal_hint};
use ftl::{RunFault, Watched};
use ftl_args::{Change, Options, Task, Work};
use ftl_files::{Disk, Form, Memory, Store};
use ftl_project::{
    CheckTask, ConvertTask, DiffTask, FormatOptions, FormatTask, NameTask, PrintTask,
    RewriteCounts, SpannedJsonTask, Streams, Tally, answer_files, check_summary, format_summary,
    write_files, write_summary,
};
use std::alloc::{AllocError, Global};
use std::io;
use std::io::Write;

/// What a run met.
#[derive(Drop)]
struct Met {
    tally: Tally,
    counts: RewriteCounts,
}

impl Met {
    /// A run that met nothing.
    fn new() -> Self {
        Met {
            tally: Tally::new(),
            counts: RewriteCounts::new(),
        }
    }

    /// Reports what was met, and gives the exit status.
    fn end(&self, rt: &HostRuntime, work: &Work<'_>) -> u8 {
        let Met { tally, counts } = self;
        let alloc = rt.alloc();
        match work.task {
            _ if work.is_quiet => tally.status(),
            Task::Check => end_run(rt, tally, check_summary(alloc, tally)),
            Task::Format(Change::Write) => end_run(rt, tally, write_summary(alloc, tally, counts)),
            Task::Format(Change::Name | Change::Show) => end_run(
                rt,
                tally,
                format_summary(alloc, tally),
            ),
            _ => tally.status(),
        }
    }
}

/// Answers the paths in their order, each file once; the exit status.
pub(crate) fn answer_paths(
    rt: &HostRuntime,
    work: &Work<'_>,
    ProjectPaths { project, paths, .. }: &ProjectPaths<'_>,
) -> Result<u8, RunFault> {
    let options = work.options.or(&project.settings);
    let mut met = Met::new();
    let mut named = NamedFiles::new(rt, project, fault_form(rt, work.task, options));
    for path in paths {
        if *path == "-" {
            answer_named_input(rt, work, options, &mut met)?;
        } else {
            let files = named.files_at(rt, *path, &mut met.tally)?;
            let mut disk = match work.task {
                Task::Format(Change::Write) => Disk::of_regular_files(rt),
                _ => Disk::new(rt),
            };
            run_task(rt, &mut disk, &files, work.task, options, &mut met)?;
        }
    }
    Ok(met.end(rt, work))
}

/// Answers standard input as a file of its name; the exit status.
pub(crate) fn answer_named(rt: &HostRuntime, work: &Work<'_>) -> Result<u8, RunFault> {
    let mut met = Met::new();
    answer_named_input(rt, work, work.options, &mut met)?;
    Ok(met.tally.status())
}

/// Answers standard input as a file of its name.
fn answer_named_input(
    rt: &HostRuntime,
    work: &Work<'_>,
    options: Options,
    met: &mut Met,
) -> Result<(), RunFault> {
    print_terminal_hint(rt);
    let input = all_input(rt)?;
    let mut memory = Memory::new(rt.alloc());
    let mut files = Vec::new(rt.alloc());
    match put_named(
        rt,
        &mut memory,
        &mut files,
        work.stdin_name,
        input.as_slice(),
    ) {
        Ok(()) => run_task(rt, &mut memory, files.as_slice(), work.task, options, met),
        Err(AllocError) => Err(RunFault::Memory),
    }
}

fn put_named<R: AllocGlobal>(
    rt: &R,
    memory: &mut Memory,
    files: &mut Vec<String>,
    name: &str,
    bytes: &[u8],
) -> Result<(), AllocError> {
    memory.put(name, bytes)?;
    files.push(String::from_str(rt.alloc(), name)?)?;
    Ok(())
}

/// How faults are reported: only what checks has forms.
fn fault_form(rt: &HostRuntime, task: Task, options: Options) -> Form {
    match task {
        Task::Check => form_over_paths(rt, options),
        _ => Form::Full,
    }
}

/// Does with the files what is asked.
fn run_task<S: Store>(
    rt: &HostRuntime,
    store: &mut S,
    files: &[String],
    task: Task,
    options: Options,
    met: &mut Met,
) -> Result<(), RunFault> {
    let alloc = rt.alloc();
    let Met { tally, counts } = met;
    let reading = options.reading();
    let format_options = FormatOptions {
        reading,
        blank_lines: options.blank_lines(),
    };
    let mut streams = Streams {
        out: &mut Watched::new(io::writer(rt)),
        err: &mut Watched::new(rt.stderr()),
        form: fault_form(rt, task, options),
    };
    match (task, task.command(reading.edition)) {
        (Task::Check, _) => {
            let form = form_over_paths(rt, options);
            let task = CheckTask { reading, form };
            answer_files(alloc, &task, store, files, tally, &mut streams)
        }
        (Task::Format(Change::Write), _) => {
            write_files(
                alloc,
                store,
                files,
                format_options,
                tally,
                counts,
                &mut streams,
            )
        }
        (Task::Format(Change::Name), _) => {
            let task = NameTask {
                options: format_options,
            };
            answer_files(alloc, &task, store, files, tally, &mut streams)
        }
        (Task::Format(Change::Show), _) => {
            let task = DiffTask {
                options: format_options,
            };
            answer_files(alloc, &task, store, files, tally, &mut streams)
        }
        (Task::Format(Change::Print), _) => {
            let task = FormatTask {
                options: format_options,
            };
            answer_files(alloc, &task, store, files, tally, &mut streams)
        }
        (_, Some(command)) => {
            let nesting = reading.nesting;
            let task = PrintTask { command, nesting };
            answer_files(alloc, &task, store, files, tally, &mut streams)
        }
        (_, None) => answer_by_json(
            alloc,
            task,
            reading.nesting,
            store,
            files,
            tally,
            &mut streams,
        ),
    }
}

/// Answers the files by their trees as JSON with places, or the trees as JSON by their texts.
fn answer_by_json<S: Store, O: Write, E: Write>(
    alloc: Global,
    task: Task,
    nesting: usize,
    store: &mut S,
    files: &[String],
    tally: &mut Tally,
    streams: &mut Streams<'_, O, E>,
) -> Result<(), RunFault> {
    let Task::FromJson(conversion) = task else {
        let task = SpannedJsonTask { nesting };
        return answer_files(alloc, &task, store, files, tally, streams);
    };
    let task = ConvertTask {
        with_junk: conversion.with_junk,
        splits_lines: conversion.splits_lines,
    };
    answer_files(alloc, &task, store, files, tally, streams)
}
