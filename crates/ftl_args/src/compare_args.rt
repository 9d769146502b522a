//! The word `compare`.

use crate::commands::{color, exclude, texts_of};
use crate::lint_args::{deny_warnings, form, ignore, ignored_of, nesting};
use crate::options::Options;
use crate::request::Change;
use clap::{Arg, ArgAction, ArgMatches, Command, Error};
use ftl_files::{DIFFERENCE_NAMES, IgnoreRule};
use std::alloc::{AllocError, Global};

/// Files of a reference language, and of others to compare with it.
#[derive(Debug, Drop)]
pub struct Compare<'a> {
    /// How a text is read, and how a difference is reported.
    pub options: Options,
    /// What is not reported.
    pub ignored: Vec<IgnoreRule>,
    /// Whether warnings make the status 1, as errors do.
    pub denies_warnings: bool,
    /// What becomes of what is missing; None where it is reported.
    pub addition: Option<Change>,
    /// What is passed over in folders.
    pub excluded: Vec<&'a str>,
    /// Files, or folders for every file below: the reference, where the project names none, and the others.
    pub paths: Vec<&'a str>,
}

const IGNORE_HELP: &str =
    "A kind that is not reported, or KIND:NAME for what has that name, where a * means any characters; \
    may be given again; kinds: missing-file, obsolete-file, missing, missing-value, missing-attribute, \
    missing-reference, obsolete, obsolete-value, obsolete-attribute, obsolete-reference, unknown-variable, \
    unknown-function";

/// The word, with its options.
pub(crate) fn compare_command<'a>(alloc: Global) -> Result<Command<'a>, AllocError> {
    Command::new(alloc, "compare")
        .about("Tells what files lack of those of a reference language, and what is obsolete there")
        .after_help(
            "Examples:
  ftl compare en de fr            each .ftl file below en with those of de and of fr
  ftl compare en/menu.ftl de/menu.ftl

Where ftl.toml has the line reference = \"locales/en\":
  ftl compare                     each language in locales
  ftl compare --add-missing       adds to each what it is missing, in the reference's language
  ftl compare locales/de          that one
  ftl compare locales/de/menu.ftl with locales/en/menu.ftl",
        )
        .arg(form(alloc))?
        .arg(color(alloc))?
        .arg(ignore(alloc, IGNORE_HELP))?
        .arg(deny_warnings(alloc))?
        .arg(add_missing(alloc))?
        .arg(names_only(alloc)?)?
        .arg(diff(alloc)?)?
        .arg(exclude(alloc))?
        .arg(nesting(alloc))?
        .arg(paths(alloc))
}

fn add_missing<'a>(alloc: Global) -> Arg<'a> {
    Arg::new(alloc, "add-missing")
        .long("add-missing")
        .help(
            "Adds the messages, terms and attributes that are missing, as the reference has them, where its order \
            puts them",
        )
        .action(ArgAction::SetTrue)
}

fn names_only<'a>(alloc: Global) -> Result<Arg<'a>, AllocError> {
    Arg::new(alloc, "check")
        .long("check")
        .help("Names the files that --add-missing would change, with status 1")
        .action(ArgAction::SetTrue)
        .requires_arg("add-missing")
}

fn diff<'a>(alloc: Global) -> Result<Arg<'a>, AllocError> {
    Arg::new(alloc, "diff")
        .long("diff")
        .help("Shows what --add-missing would change, with status 1")
        .action(ArgAction::SetTrue)
        .requires_arg("add-missing")?
        .conflicts_with("check")
}

/// What becomes of what is missing, as the options say.
fn addition_of(options: &ArgMatches<'_>) -> Option<Change> {
    if !options.get_flag("add-missing") {
        None
    } else if options.get_flag("check") {
        Some(Change::Name)
    } else if options.get_flag("diff") {
        Some(Change::Show)
    } else {
        Some(Change::Write)
    }
}

fn paths<'a>(alloc: Global) -> Arg<'a> {
    Arg::new(alloc, "paths")
        .value_name("PATH")
        .help(
            "The reference, if no ftl.toml names it, and files or folders to compare with it, by default every \
            language; files in folders are matched by their paths below",
        )
        .action(ArgAction::Append)
        .num_args(1..)
}

/// What the options ask for; a mistake in them as `Err`.
pub(crate) fn compare_of<'a>(
    alloc: Global,
    said: Options,
    options: &ArgMatches<'a>,
) -> Result<Compare<'a>, Error> {
    Ok(Compare {
        options: said,
        ignored: ignored_of(alloc, options, DIFFERENCE_NAMES.as_slice())?,
        denies_warnings: options.get_flag("deny-warnings"),
        addition: addition_of(options),
        excluded: texts_of(alloc, options, "exclude")?,
        paths: texts_of(alloc, options, "paths")?,
    })
}
