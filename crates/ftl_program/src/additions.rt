//! Files that get what they are missing of their reference.

use ftl::{RunFault, Watched};
use ftl_args::Change;
use ftl_files::{Disk, Form, ReportedKind, is_ignored};
use ftl_project::{AddCounts, AddOptions, Addition, Pair, Presence, Streams, Tally, add_missing};
use std::fs::OpenOptions;
use std::path::Path;
use std::{fs, io};

/// What a run met.
#[derive(Drop)]
pub(crate) struct Met {
    pub(crate) tally: Tally,
    pub(crate) counts: AddCounts,
}

impl Met {
    /// A run that met nothing.
    pub(crate) fn new() -> Self {
        Met {
            tally: Tally::new(),
            counts: AddCounts::new(),
        }
    }
}

/// What becomes of what is missing, by the words.
pub(crate) fn addition_of(change: Option<Change>) -> Option<Addition> {
    match change? {
        Change::Name => Some(Addition::Name),
        Change::Show => Some(Addition::Show),
        Change::Print | Change::Write => Some(Addition::Write),
    }
}

/// Whether the pair's translation isn't there, and that is an error or a warning.
fn is_to_be_made(pair: &Pair<'_>) -> bool {
    pair.presence == Presence::ReferenceAlone
        && !is_ignored(pair.ignored, ReportedKind::MissingFile, "")
}

/// Makes an empty file, and the folders that it is in.
fn make_file(rt: &HostRuntime, path: &str) -> io::Result<()> {
    if let Some(folder) = Path::new(path).parent() {
        if !folder.as_str().is_empty() {
            fs::create_dir_all(rt, folder.as_str())?;
        }
    }
    OpenOptions::new()
        .write(true)
        .create_new(true)
        .open(rt, path)?;
    Ok(())
}

/// Adds to the translations of the pairs what they are missing. A file that isn't there is made, where it is to be
/// written.
pub(crate) fn add_to_pairs(
    rt: &HostRuntime,
    form: Form,
    pairs: &mut [Pair<'_>],
    options: AddOptions,
    met: &mut Met,
) -> Result<(), RunFault> {
    if options.addition == Addition::Write {
        for pair in pairs.iter_mut() {
            if is_to_be_made(pair) && make_file(rt, pair.other.as_str()).is_ok() {
                pair.presence = Presence::Both;
            }
        }
    }
    let mut streams = Streams {
        out: &mut Watched::new(io::writer(rt)),
        err: &mut Watched::new(rt.stderr()),
        form,
    };
    add_missing(
        rt.alloc(),
        &mut Disk::of_regular_files(rt),
        pairs,
        options,
        &mut met.tally,
        &mut met.counts,
        &mut streams,
    )
}
