//! Files and folders, searched for mistakes between names.

use crate::colors::form_over_paths;
use crate::file_sets::{FileSet, add_files, languages_of};
use crate::ignored::IgnoredRules;
use crate::listed::{NamedFiles, report_listing_fault};
use crate::messages::{end_run, refuse_input, run_status};
use crate::project::{Project, ProjectPaths, projects_of};
use ftl::{RunFault, Watched};
use ftl_args::Lint;
use ftl_files::{Disk, Form, Reading, absolute_path};
use ftl_project::{Fault, LintOptions, Streams, Tally, check_summary, lint_files};
use std::alloc::{AllocError, Global};
use std::{fs, io};

/// Searches the files that the paths name, each language as a set of its own, which all its files are in; the exit
/// status. What the project ignores is not reported.
pub(crate) fn lint_paths(rt: &HostRuntime, lint: &Lint<'_>) -> u8 {
    if lint.paths.contains(&"-") {
        return refuse_input(rt, "lint");
    }
    match projects_of(rt, &lint.excluded, &lint.paths) {
        Ok(projects) => run_status(rt, lint_projects(rt, lint, &projects)),
        Err(status) => status,
    }
}

/// Searches the files of one project after those of another; the greatest exit status.
fn lint_projects(
    rt: &HostRuntime,
    lint: &Lint<'_>,
    projects: &[ProjectPaths<'_>],
) -> Result<u8, RunFault> {
    let mut status = 0;
    for project in projects {
        let mut tally = Tally::new();
        lint_project(rt, lint, project, &mut tally)?;
        let ended = end_run(rt, &tally, check_summary(rt.alloc(), &tally));
        status = status
            .max(ended)
            .max(tally.warnings_status(lint.denies_warnings));
    }
    Ok(status)
}

fn lint_project(
    rt: &HostRuntime,
    lint: &Lint<'_>,
    ProjectPaths { project, paths, .. }: &ProjectPaths<'_>,
    tally: &mut Tally,
) -> Result<(), RunFault> {
    let options = lint.options.or(&project.settings);
    let Ok(ignored) = IgnoredRules::new(rt.alloc(), project, &lint.ignored) else {
        return Err(RunFault::Memory);
    };
    let form = form_over_paths(rt, options);
    report_no_reference(rt, project, form, tally)?;
    let mut sets = sets_of(rt, lint, project, &ignored, paths, form, tally)?;
    for set in sets.iter_mut() {
        set.complete(rt, project, form, tally)?;
    }
    for set in &sets {
        let lint_options = LintOptions {
            form,
            levels: project.levels(),
            set_name: set.folder.as_str(),
            categories: set.categories(),
        };
        lint_set(rt, set, options.reading(), lint_options, tally)?;
    }
    Ok(())
}

/// Reports that the project's reference is not there, if it is not: then no folder is that of languages.
pub(crate) fn report_no_reference(
    rt: &HostRuntime,
    project: &Project,
    form: Form,
    tally: &mut Tally,
) -> Result<(), RunFault> {
    let Some(reference) = &project.settings.reference else {
        return Ok(());
    };
    match fs::metadata(rt, reference.as_str()) {
        Ok(_) => Ok(()),
        Err(error) => report_listing_fault(
            rt,
            reference.as_str(),
            &Fault::Read(error),
            form,
            tally,
        ),
    }
}

fn lint_set(
    rt: &HostRuntime,
    set: &FileSet<'_>,
    reading: Reading,
    lint_options: LintOptions<'_>,
    tally: &mut Tally,
) -> Result<(), RunFault> {
    let mut streams = Streams {
        out: &mut Watched::new(io::writer(rt)),
        err: &mut Watched::new(rt.stderr()),
        form: lint_options.form,
    };
    lint_files(
        rt.alloc(),
        &mut Disk::new(rt),
        &set.files,
        reading,
        lint_options,
        tally,
        &mut streams,
    )
}

/// The files that the paths name, each once, by language. What can't be listed is reported.
fn sets_of<'r>(
    rt: &HostRuntime,
    lint: &Lint<'_>,
    project: &Project,
    ignored: &'r IgnoredRules,
    paths: &[&str],
    form: Form,
    tally: &mut Tally,
) -> Result<Vec<FileSet<'r>>, RunFault> {
    let alloc = rt.alloc();
    let mut named = NamedFiles::new(rt, project, form);
    let mut sets = Vec::new(alloc);
    for path in paths {
        let files = named.files_at(rt, *path, tally)?;
        let Ok(languages) = languages_at(alloc, lint, project, *path) else {
            return Err(RunFault::Memory);
        };
        let languages = languages.as_ref().map(|folder| folder.as_str());
        let Ok(()) = add_files(alloc, &mut sets, project, ignored, languages, files) else {
            return Err(RunFault::Memory);
        };
    }
    Ok(sets)
}

/// The folder whose folders are languages: the path itself, if the words say so, or else that of the project.
fn languages_at(
    alloc: Global,
    lint: &Lint<'_>,
    project: &Project,
    path: &str,
) -> Result<Option<String>, AllocError> {
    if lint.each {
        Ok(Some(absolute_path(alloc, project.current.as_str(), path)?))
    } else {
        languages_of(alloc, project)
    }
}
