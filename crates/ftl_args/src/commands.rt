//! The command line, as `clap` reads it.

use crate::compare_args::compare_command;
use crate::lint_args::{lint_command, nesting};
use clap::{Arg, ArgAction, ArgMatches, Command};
use std::alloc::{AllocError, Global};

static EDITIONS: [&str; 2] = ["1", "2"];

static FORMS: [&str; 4] = ["lines", "full", "json", "github"];

static COLORS: [&str; 3] = ["auto", "always", "never"];

static BLANK_LINES: [&str; 2] = ["normal", "keep"];

/// What standard input is called.
const STDIN_NAME: &str = "<stdin>";

/// The command line that `ftl` takes, where this is its first word. The words that read by edition two are in it only
/// where they are asked for, so that none of them is proposed for another.
pub fn command_line<'a>(alloc: Global, word: &str) -> Result<Command<'a>, AllocError> {
    let program = Command::new(alloc, "ftl").subcommand_required(true);
    let program = with_checks(alloc, program)?;
    let program = with_conversions(alloc, program)?;
    let program = with_other_words(alloc, program)?;
    if word.ends_with("-two") {
        with_checks_by_edition_two(alloc, program)
    } else {
        Ok(program)
    }
}

/// Adds the words that check and format.
fn with_checks<'a>(alloc: Global, program: Command<'a>) -> Result<Command<'a>, AllocError> {
    program
        .subcommand(check_of_editions(alloc)?)?
        .subcommand(format_of_editions(alloc)?)
}

/// Adds the words that do so by edition two, which no help names.
fn with_checks_by_edition_two<'a>(
    alloc: Global,
    program: Command<'a>,
) -> Result<Command<'a>, AllocError> {
    program
        .subcommand(check(alloc, "check-two")?)?
        .subcommand(format(alloc, "format-two")?)
}

/// Adds the words that write another form.
fn with_conversions<'a>(alloc: Global, program: Command<'a>) -> Result<Command<'a>, AllocError> {
    program
        .subcommand(word(
            alloc,
            "runtime",
            "Writes each file in its normal form without comments",
            "Examples:\n  ftl runtime menu.ftl > small.ftl",
        )?)?
        .subcommand(json(alloc)?)?
        .subcommand(from_json(alloc)?)
}

/// Adds the words that look at several files, and that for editors.
fn with_other_words<'a>(alloc: Global, program: Command<'a>) -> Result<Command<'a>, AllocError> {
    program
        .subcommand(lint_command(alloc)?)?
        .subcommand(compare_command(alloc)?)?
        .subcommand(Command::new(alloc, "lsp").about("A language server, for editors"))
}

fn check_of_editions<'a>(alloc: Global) -> Result<Command<'a>, AllocError> {
    check(alloc, "check")?.arg(edition(alloc))
}

fn format_of_editions<'a>(alloc: Global) -> Result<Command<'a>, AllocError> {
    format(alloc, "format")?.arg(edition(alloc))
}

fn check<'a>(alloc: Global, name: &'a str) -> Result<Command<'a>, AllocError> {
    word(
        alloc,
        name,
        "Tells the syntax errors",
        "Examples:
  ftl check .                    every .ftl file below this folder
  ftl check --output github po   for a run on GitHub
  ftl check < menu.ftl           a line of numbers for each error",
    )?
    .arg(output(alloc))?
    .arg(color(alloc))?
    .arg(stdin_name(alloc))
}

fn output<'a>(alloc: Global) -> Arg<'a> {
    Arg::new(alloc, "output")
        .long("output")
        .value_name("FORM")
        .help("How an error is told: full where there are paths, else as a line of numbers")
        .action(ArgAction::Set)
        .value_parser(FORMS.as_slice())
}

fn stdin_name<'a>(alloc: Global) -> Arg<'a> {
    Arg::new(alloc, "stdin-name")
        .long("stdin-name")
        .value_name("NAME")
        .help("What standard input is called")
        .action(ArgAction::Set)
        .default_value(STDIN_NAME)
}

/// The option for colours.
pub(crate) fn color<'a>(alloc: Global) -> Arg<'a> {
    Arg::new(alloc, "color")
        .long("color")
        .value_name("WHEN")
        .help("Colours of the full form, by default auto: on a terminal, where NO_COLOR is not set")
        .action(ArgAction::Set)
        .value_parser(COLORS.as_slice())
}

fn format<'a>(alloc: Global, name: &'a str) -> Result<Command<'a>, AllocError> {
    word(
        alloc,
        name,
        "Writes each file in its normal form",
        "Examples:
  ftl format --write .       every .ftl file below this folder
  ftl format --check .       names the files that this would change
  ftl format < menu.ftl      the normal form; entries with errors are left out",
    )?
    .arg(write(alloc)?)?
    .arg(names_only(alloc))?
    .arg(diff(alloc)?)?
    .arg(blank_lines(alloc))?
    .arg(quiet(alloc))?
    .arg(stdin_name(alloc))
}

fn write<'a>(alloc: Global) -> Result<Arg<'a>, AllocError> {
    Arg::new(alloc, "write")
        .short('w')
        .long("write")
        .help("Puts the normal form in the place of each file without errors that reads back")
        .action(ArgAction::SetTrue)
        .conflicts_with("check")
}

fn names_only<'a>(alloc: Global) -> Arg<'a> {
    Arg::new(alloc, "check")
        .long("check")
        .help("Names the files that --write would change, with status 1")
        .action(ArgAction::SetTrue)
}

fn diff<'a>(alloc: Global) -> Result<Arg<'a>, AllocError> {
    Arg::new(alloc, "diff")
        .long("diff")
        .help("Shows what --write would change, with status 1")
        .action(ArgAction::SetTrue)
        .conflicts_with("write")?
        .conflicts_with("check")
}

fn blank_lines<'a>(alloc: Global) -> Arg<'a> {
    Arg::new(alloc, "blank-lines")
        .long("blank-lines")
        .value_name("HOW")
        .help("With keep one is left where there are some between two messages; by default none is")
        .action(ArgAction::Set)
        .value_parser(BLANK_LINES.as_slice())
}

fn quiet<'a>(alloc: Global) -> Arg<'a> {
    Arg::new(alloc, "quiet")
        .short('q')
        .long("quiet")
        .help("Leaves out the last line, of how many files there are; errors are told all the same")
        .action(ArgAction::SetTrue)
}

fn json<'a>(alloc: Global) -> Result<Command<'a>, AllocError> {
    word(
        alloc,
        "json",
        "Writes the tree of each file as JSON, on one line",
        "Examples:
  ftl json menu.ftl > menu.json
  ftl json --spans locales       the trees of a folder, each with its path",
    )?
    .arg(flag(alloc, "spans").help(
        "Adds the file's path, where each entry and element is, and the errors of junk",
    ))
}

fn from_json<'a>(alloc: Global) -> Result<Command<'a>, AllocError> {
    Command::new(alloc, "from-json")
        .about("Reads a tree as JSON, as `json` writes it, and writes its text")
        .after_help("Examples:\n  ftl from-json menu.json > menu.ftl")
        .arg(flag(alloc, "with-junk").help("Writes junk too, which is left out else"))?
        .arg(flag(alloc, "split-lines").help(
            "Takes a text of several lines for one text a line, so that it reads back",
        ))?
        .arg(paths(alloc, "Files of JSON, or `-`; none for standard input"))
}

fn flag<'a>(alloc: Global, name: &'a str) -> Arg<'a> {
    Arg::new(alloc, name).long(name).action(ArgAction::SetTrue)
}

/// A word that reads Fluent files.
fn word<'a>(
    alloc: Global,
    name: &'a str,
    about: &'a str,
    examples: &'a str,
) -> Result<Command<'a>, AllocError> {
    Command::new(alloc, name)
        .about(about)
        .after_help(examples)
        .arg(nesting(alloc))?
        .arg(exclude(alloc))?
        .arg(paths(
            alloc,
            "Files, folders for every .ftl file below, or `-`; none for standard input",
        ))
}

fn edition<'a>(alloc: Global) -> Arg<'a> {
    Arg::new(alloc, "edition")
        .long("edition")
        .value_name("EDITION")
        .help("The edition of the grammar, by default 1")
        .action(ArgAction::Set)
        .value_parser(EDITIONS.as_slice())
}

fn paths<'a>(alloc: Global, help: &'a str) -> Arg<'a> {
    Arg::new(alloc, "paths")
        .value_name("PATH")
        .help(help)
        .action(ArgAction::Append)
        .num_args(0..)
}

/// The option for what is passed over in folders.
pub(crate) fn exclude<'a>(alloc: Global) -> Arg<'a> {
    Arg::new(alloc, "exclude")
        .long("exclude")
        .value_name("NAME")
        .help(
            "Passes over what has the name in a folder, or with a `/` the path; may be given again",
        )
        .action(ArgAction::Append)
}

/// The texts that the words give for the argument.
pub(crate) fn texts_of<'a>(
    alloc: Global,
    options: &ArgMatches<'a>,
    argument: &str,
) -> Result<Vec<&'a str>, AllocError> {
    match options.get_strs(argument) {
        Some(texts) => Vec::from_slice(alloc, texts),
        None => Ok(Vec::new(alloc)),
    }
}
