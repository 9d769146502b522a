//! Files and folders, compared with those of a reference language.

use crate::additions::{Met, add_to_pairs, addition_of};
use crate::colors::form_over_paths;
use crate::counterparts::{Counterparts, counterparts_of};
use crate::file_sets::languages_of;
use crate::ignored::IgnoredRules;
use crate::lint::report_no_reference;
use crate::listed::{Named, NamedFiles, listing_at, report_note};
use crate::messages::{WRONG_ARGS, end_run, refuse_input, report_nothing_to_compare, run_status};
use crate::pairs::{Paired, pairs_of};
use crate::project::{Project, ProjectPaths, projects_of};
use ftl::{RunFault, Watched};
use ftl_args::{Compare, Options};
use ftl_files::{Disk, Form};
use ftl_project::{
    AddOptions, Addition, CompareOptions, Pair, Share, Streams, Tally, add_summary, check_summary,
    compare_files, note_line, share_json, share_line,
};
use std::alloc::{AllocError, Global};
use std::io;

/// Compares what the paths name, one by one, with the reference; without paths, every language. The exit status.
pub(crate) fn compare_paths(rt: &HostRuntime, compare: &Compare<'_>) -> u8 {
    if compare.paths.contains(&"-") {
        return refuse_input(rt, "compare");
    }
    if compare.paths.is_empty() {
        return compare_found(rt, compare, projects_of(rt, &compare.excluded, &["."]));
    }
    compare_found(
        rt,
        compare,
        projects_of(rt, &compare.excluded, &compare.paths),
    )
}

/// Compares the paths of these projects; the exit status, which is given where there are none.
fn compare_found(
    rt: &HostRuntime,
    compare: &Compare<'_>,
    found: Result<Vec<ProjectPaths<'_>>, u8>,
) -> u8 {
    match found {
        Ok(projects) => run_status(rt, compare_projects(rt, compare, &projects)),
        Err(status) => status,
    }
}

/// Compares the paths of one project after those of another; the greatest exit status. Where none of them names a
/// reference, the first of all paths is that.
fn compare_projects(
    rt: &HostRuntime,
    compare: &Compare<'_>,
    projects: &[ProjectPaths<'_>],
) -> Result<u8, RunFault> {
    let mut status = 0;
    for ProjectPaths { project, paths, .. } in projects {
        if project.settings.reference.is_none() && is_without_reference(projects) {
            return compare_in(rt, compare, project, &compare.paths);
        }
        let compared = if compare.paths.is_empty() {
            // every language
            compare_in(rt, compare, project, &[])?
        } else {
            compare_in(rt, compare, project, paths)?
        };
        status = status.max(compared);
    }
    Ok(status)
}

fn is_without_reference(projects: &[ProjectPaths<'_>]) -> bool {
    projects
        .iter()
        .all(|paths| paths.project.settings.reference.is_none())
}

/// Compares the paths by what the project says; the exit status.
fn compare_in(
    rt: &HostRuntime,
    compare: &Compare<'_>,
    project: &Project,
    paths: &[&str],
) -> Result<u8, RunFault> {
    let counterparts = counterparts_of(rt, project, paths)?;
    let options = compare.options.or(&project.settings);
    let mut met = Met::new();
    if counterparts.is_empty() && (project.settings.reference.is_none() || paths.is_empty()) {
        if !has_languages(rt.alloc(), project)? {
            return Ok(report_nothing_to_compare(rt));
        }
        report_no_language(rt, project, form_over_paths(rt, options), &mut met.tally)?;
    }
    let Ok(ignored) = IgnoredRules::new(rt.alloc(), project, &compare.ignored) else {
        return Err(RunFault::Memory);
    };
    let comparison = Comparison {
        rt,
        project,
        options,
        ignored: &ignored,
        addition: addition_of(compare.addition),
    };
    comparison.compare_all(&counterparts, &mut met)?;
    let Met { tally, counts } = &met;
    let summary = match comparison.addition {
        Some(addition) => add_summary(rt.alloc(), tally, counts, addition),
        None => check_summary(rt.alloc(), tally),
    };
    let status = end_run(rt, tally, summary);
    Ok(status.max(tally.warnings_status(compare.denies_warnings)))
}

/// Whether the project has a folder of languages.
fn has_languages(alloc: Global, project: &Project) -> Result<bool, RunFault> {
    match languages_of(alloc, project) {
        Ok(languages) => Ok(languages.is_some()),
        Err(AllocError) => Err(RunFault::Memory),
    }
}

/// Reports that there is no language but the reference, or not even that.
fn report_no_language(
    rt: &HostRuntime,
    project: &Project,
    form: Form,
    tally: &mut Tally,
) -> Result<(), RunFault> {
    if let Some(reference) = &project.settings.reference {
        report_note(rt, reference.as_str(), "has no other language next to it")?;
    }
    report_no_reference(rt, project, form, tally)
}

/// How what paths name is compared.
#[derive(Clone, Copy)]
struct Comparison<'p> {
    rt: &'p HostRuntime,
    project: &'p Project,
    options: Options,
    /// What is not reported.
    ignored: &'p IgnoredRules,
    /// What becomes of what is missing; None where it is reported.
    addition: Option<Addition>,
}

impl Comparison<'_> {
    /// How what is found is reported.
    fn form(&self) -> Form {
        form_over_paths(self.rt, self.options)
    }

    /// Compares each file or folder, once, with its counterpart. What can't be listed, and a file where the other one
    /// is a folder, or the other way round, is reported, and the others are compared.
    fn compare_all(&self, counterparts: &[Counterparts], met: &mut Met) -> Result<(), RunFault> {
        let form = self.form();
        let mut named = NamedFiles::new(self.rt, self.project, form);
        let mut last = "";
        let mut listed: Option<Named> = None;
        for counterpart in counterparts {
            if !named.is_new(self.rt, counterpart.other.as_str())? {
                continue;
            }
            if !counterpart.has_reference {
                self.compare_other(counterpart, None, met)?;
                continue;
            }
            let reference = counterpart.reference.as_str();
            if listed.is_none() || reference != last {
                listed = Some(listing_at(self.rt, self.project, reference, form, &mut met.tally)?);
                last = reference;
            }
            match &listed {
                Some(own) if !own.has_failed => { self.compare_other(counterpart, Some(own), met)? }
                _ => (),
            }
        }
        Ok(())
    }

    /// Compares the other one with the reference, which has these files; none where it is not there.
    fn compare_other(
        &self,
        counterpart: &Counterparts,
        own: Option<&Named>,
        met: &mut Met,
    ) -> Result<(), RunFault> {
        let rt = self.rt;
        let (reference, other) = (counterpart.reference.as_str(), counterpart.other.as_str());
        let named = listing_at(rt, self.project, other, self.form(), &mut met.tally)?;
        if named.has_failed {
            return Ok(());
        }
        if named.files.is_empty() && !counterpart.is_named {
            return report_note(rt, other, "has no .ftl file");
        }
        let own_files = match own {
            Some(own) if named.is_file != own.is_file => {
                met.tally.add_fault(WRONG_ARGS);
                return report_other_kind(rt, reference, own.is_file, other);
            }
            Some(own) => own.files.as_slice(),
            None => &[],
        };
        let Ok(mut pairs) = pairs_of(
            rt.alloc(),
            self.ignored,
            Paired {
                reference,
                reference_files: own_files,
                other,
                other_files: &named.files,
            },
        ) else {
            return Err(RunFault::Memory);
        };
        match self.addition {
            Some(addition) => add_to_pairs(
                rt,
                self.form(),
                &mut pairs,
                AddOptions {
                    reading: self.options.reading(),
                    addition,
                },
                met,
            ),
            None => self.compare_pairs(other, &pairs, &mut met.tally),
        }
    }

    /// Compares the pairs of one language, and reports how much of it is there.
    fn compare_pairs(
        &self,
        other: &str,
        pairs: &[Pair<'_>],
        tally: &mut Tally,
    ) -> Result<(), RunFault> {
        let rt = self.rt;
        let mut share = Share {
            wanted: 0,
            missing: 0,
        };
        let mut streams = Streams {
            out: &mut Watched::new(io::writer(rt)),
            err: &mut Watched::new(rt.stderr()),
            form: self.form(),
        };
        compare_files(
            rt.alloc(),
            &mut Disk::new(rt),
            pairs,
            self.options.reading(),
            CompareOptions {
                form: self.form(),
                levels: self.project.levels(),
            },
            tally,
            &mut share,
            &mut streams,
        )?;
        let shown = match self.form() {
            Form::Json => share_json(rt.alloc(), other, &share),
            _ => share_of(rt.alloc(), other, &share),
        };
        match shown {
            Ok(line) => {
                let _ = rt.eprint(line.as_str());
                Ok(())
            }
            Err(AllocError) => Err(RunFault::Memory),
        }
    }
}

/// How much of the reference the other one has, on a line.
fn share_of(alloc: Global, other: &str, share: &Share) -> Result<String, AllocError> {
    let line = share_line(alloc, share)?;
    format!(in alloc; "{other}: {line}")
}

/// Reports that one of the two is a file and the other one a folder.
fn report_other_kind(
    rt: &HostRuntime,
    reference: &str,
    is_file: bool,
    other: &str,
) -> Result<(), RunFault> {
    let (own, its) = if is_file {
        ("file", "folder")
    } else {
        ("folder", "file")
    };
    let Ok(note) = format!(in rt.alloc(); "is a {its}, and the reference {reference} is a {own}")
    else {
        return Err(RunFault::Memory);
    };
    match note_line(rt.alloc(), other, &note) {
        Ok(line) => drop(rt.eprint(line.as_str())),
        Err(AllocError) => return Err(RunFault::Memory),
    }
    Ok(())
}
