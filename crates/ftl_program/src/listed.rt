//! Which files the paths of the words name.

use crate::project::Project;
use ftl::{RunFault, Watched};
use ftl_files::{SeenPaths, list};
use ftl_project::{Fault, Form, Streams, Tally, note_line, report_fault};
use std::alloc::AllocError;
use std::io;

/// The files that paths name in a project, each once, however often it is named.
#[derive(Drop)]
pub(crate) struct NamedFiles<'p> {
    project: &'p Project,
    /// How what can't be listed is reported.
    form: Form,
    seen: SeenPaths,
}

impl<'p> NamedFiles<'p> {
    /// None so far.
    pub(crate) fn new(rt: &HostRuntime, project: &'p Project, form: Form) -> Self {
        NamedFiles {
            project,
            form,
            seen: SeenPaths::new(rt.alloc()),
        }
    }

    /// The files that the path names, without those that an earlier one named. What can't be listed is reported.
    pub(crate) fn files_at(
        &mut self,
        rt: &HostRuntime,
        path: &str,
        tally: &mut Tally,
    ) -> Result<Vec<String>, RunFault> {
        let mut files = Vec::new(rt.alloc());
        let named = listing_at(rt, self.project, path, self.form, tally)?;
        if named.files.is_empty() && !named.has_failed {
            report_note(rt, path, "has no .ftl file")?;
        }
        for file in named.files {
            if self.is_new(rt, file.as_str())? && files.push(file).is_err() {
                return Err(RunFault::Memory);
            }
        }
        Ok(files)
    }

    /// Notes the path; whether no earlier one is the same.
    pub(crate) fn is_new(&mut self, rt: &HostRuntime, path: &str) -> Result<bool, RunFault> {
        match self
            .seen
            .add(rt.alloc(), self.project.current.as_str(), path)
        {
            Ok(is_new) => Ok(is_new),
            Err(AllocError) => Err(RunFault::Memory),
        }
    }
}

/// What a path names.
#[derive(Drop)]
pub(crate) struct Named {
    /// The file, or the files below the folder.
    pub(crate) files: Vec<String>,
    /// Whether it is a file.
    pub(crate) is_file: bool,
    /// Whether it could not be listed at all.
    pub(crate) has_failed: bool,
}

/// What the path names. What can't be listed is reported.
pub(crate) fn listing_at(
    rt: &HostRuntime,
    project: &Project,
    path: &str,
    form: Form,
    tally: &mut Tally,
) -> Result<Named, RunFault> {
    let Ok(listing) = list(rt, project.current.as_str(), path, &project.excluded) else {
        return Err(RunFault::Memory);
    };
    let is_file = listing.is_of_file(path);
    let has_failed = listing.has_failed(path);
    for (path, error) in listing.faults {
        report_listing_fault(rt, path.as_str(), &Fault::Read(error), form, tally)?;
    }
    for folder in &listing.with_other_names {
        report_note(
            rt,
            folder.as_str(),
            "has an entry whose name is not UTF-8, which is passed over",
        )?;
    }
    Ok(Named {
        files: listing.files,
        is_file,
        has_failed,
    })
}

/// Reports what is to be known of what has the path.
pub(crate) fn report_note(rt: &HostRuntime, path: &str, note: &str) -> Result<(), RunFault> {
    match note_line(rt.alloc(), path, &note) {
        Ok(line) => {
            let _ = rt.eprint(line.as_str());
            Ok(())
        }
        Err(AllocError) => Err(RunFault::Memory),
    }
}

/// Reports why what has the path was not answered, and counts it.
pub(crate) fn report_listing_fault(
    rt: &HostRuntime,
    path: &str,
    fault: &Fault,
    form: Form,
    tally: &mut Tally,
) -> Result<(), RunFault> {
    let mut streams = Streams {
        out: &mut Watched::new(io::writer(rt)),
        err: &mut Watched::new(rt.stderr()),
        form,
    };
    report_fault(rt.alloc(), tally, path, fault, &mut streams)
}
