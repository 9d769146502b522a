//! The word `lint`.

use crate::commands::{color, exclude, texts_of};
use crate::options::Options;
use clap::error::ErrorKind;
use clap::{Arg, ArgAction, ArgMatches, Command, Error, value_parser};
use ftl_files::{FINDING_NAMES, IgnoreRule, ignore_rule_of_text};
use std::alloc::{AllocError, Global};

/// Files to search for mistakes between names.
#[derive(Debug, Drop)]
pub struct Lint<'a> {
    /// How a text is read, and how a finding is reported.
    pub options: Options,
    /// What is not reported.
    pub ignored: Vec<IgnoreRule>,
    /// Whether warnings make the status 1, as errors do.
    pub denies_warnings: bool,
    /// What is passed over in folders.
    pub excluded: Vec<&'a str>,
    /// Whether each folder directly below a path is a set of its own.
    pub each: bool,
    /// Files and folders, which are one set, or one for each language of the project.
    pub paths: Vec<&'a str>,
}

static FORMS: [&str; 4] = ["full", "lines", "json", "github"];

/// The word, with its options.
pub(crate) fn lint_command<'a>(alloc: Global) -> Result<Command<'a>, AllocError> {
    Command::new(alloc, "lint")
        .about("Tells names that are given twice, and references to what no file defines")
        .after_help(
            "Examples:
  ftl lint .                                every .ftl file below this folder
  ftl lint --each locales                   the same, each folder in locales as a set of its own
  ftl lint --ignore undefined-message menu.ftl

Where ftl.toml has the line reference = \"locales/en\", each folder in locales is a set of its own \
also without --each.",
        )
        .arg(form(alloc))?
        .arg(color(alloc))?
        .arg(ignore(alloc, IGNORE_HELP))?
        .arg(deny_warnings(alloc))?
        .arg(exclude(alloc))?
        .arg(each(alloc))?
        .arg(nesting(alloc))?
        .arg(paths(alloc))
}

const IGNORE_HELP: &str =
    "A kind that is not reported, or KIND:NAME for what has that name, where a * means any characters; \
    may be given again; kinds: defined-twice, attribute-twice, variant-twice, undefined-message, \
    undefined-term, undefined-attribute, undefined-value, cyclic-reference, plural-category";

/// The option for what is not reported.
pub(crate) fn ignore<'a>(alloc: Global, help: &'a str) -> Arg<'a> {
    Arg::new(alloc, "ignore")
        .long("ignore")
        .value_name("KIND")
        .help(help)
        .action(ArgAction::Append)
}

/// The option for the status of warnings.
pub(crate) fn deny_warnings<'a>(alloc: Global) -> Arg<'a> {
    Arg::new(alloc, "deny-warnings")
        .long("deny-warnings")
        .help("Warnings have the status 1, as errors do")
        .action(ArgAction::SetTrue)
}

fn each<'a>(alloc: Global) -> Arg<'a> {
    Arg::new(alloc, "each")
        .long("each")
        .help("Each folder directly below a PATH is a set of its own, as a language is")
        .action(ArgAction::SetTrue)
}

/// The option for the form.
pub(crate) fn form<'a>(alloc: Global) -> Arg<'a> {
    Arg::new(alloc, "output")
        .long("output")
        .value_name("FORM")
        .help("How what is found is told, by default full")
        .action(ArgAction::Set)
        .value_parser(FORMS.as_slice())
}

/// The option for the nesting.
pub(crate) fn nesting<'a>(alloc: Global) -> Arg<'a> {
    Arg::new(alloc, "nesting")
        .long("nesting")
        .value_name("N")
        .help(
            "How many placeables and argument lists may be open at once, by default 2000; a deeper text has status 6",
        )
        .action(ArgAction::Set)
        .value_parser(value_parser!(u32))
}

fn paths<'a>(alloc: Global) -> Arg<'a> {
    Arg::new(alloc, "paths")
        .value_name("PATH")
        .help("Files, and folders for every .ftl file below")
        .action(ArgAction::Append)
        .num_args(1..)
        .required(true)
}

/// What the options ask for; a mistake in them as `Err`.
pub(crate) fn lint_of<'a>(
    alloc: Global,
    said: Options,
    options: &ArgMatches<'a>,
) -> Result<Lint<'a>, Error> {
    Ok(Lint {
        options: said,
        ignored: ignored_of(alloc, options, FINDING_NAMES.as_slice())?,
        denies_warnings: options.get_flag("deny-warnings"),
        excluded: texts_of(alloc, options, "exclude")?,
        each: options.get_flag("each"),
        paths: texts_of(alloc, options, "paths")?,
    })
}

/// What the options say is not reported, of these kinds; a text that says no such thing as `Err`.
pub(crate) fn ignored_of(
    alloc: Global,
    options: &ArgMatches<'_>,
    kinds: &[&str],
) -> Result<Vec<IgnoreRule>, Error> {
    let mut ignored = Vec::new(alloc);
    for text in options.get_strs("ignore").unwrap_or(&[]) {
        match ignore_rule_of_text(alloc, *text)? {
            Some(rule) if kinds.contains(&rule.kind.name()) => ignored.push(rule)?,
            _ => return Err(wrong_rule(alloc, *text, kinds)?),
        }
    }
    Ok(ignored)
}

/// The mistake that the text is no rule, in the words in which a value that is none of a list is reported.
fn wrong_rule(alloc: Global, text: &str, kinds: &[&str]) -> Result<Error, AllocError> {
    let mut message = format!(in alloc;
        "invalid value '{text}' for '--ignore <KIND>'\n  [possible values: "
    )?;
    for (index, kind) in kinds.iter().enumerate() {
        if index != 0 {
            message.push_str(", ")?;
        }
        message.push_str(*kind)?;
    }
    message.push(']')?;
    Command::new(alloc, "ftl").error(ErrorKind::InvalidValue, message.as_str())
}
