//! The request that a command line makes.

use crate::commands::{command_line, texts_of};
use crate::compare_args::compare_of;
use crate::lint_args::lint_of;
use crate::options::Options;
use crate::request::{Change, Conversion, Request, Task, Work};
use clap::{ArgMatches, Error};
use fluent_syntax_tree::edition::Edition;
use ftl_files::{BlankLines, Color, Output, blank_lines_of_name, color_of_name, output_of_name};
use std::alloc::{AllocError, Global};

/// What the words ask for, the program's own name first; a mistake in them, or a wish for help, as `Err`.
pub fn request_of<'a>(alloc: Global, words: &'a [String]) -> Result<Request<'a>, Error> {
    let matches = command_line(alloc, asked_word(words))?.try_get_matches_from(words)?;
    let Some((word, options)) = matches.subcommand() else {
        // the word is required
        return Err(Error::from(AllocError));
    };
    if word == "lsp" {
        return Ok(Request::Serve);
    }
    if word == "lint" {
        let said = options_of(word, options);
        return Ok(Request::Lint(lint_of(alloc, said, options)?));
    }
    if word == "compare" {
        let said = options_of(word, options);
        return Ok(Request::Compare(compare_of(alloc, said, options)?));
    }
    Ok(Request::Answer(Work {
        task: task_of(word, options),
        options: options_of(word, options),
        is_quiet: options.get_flag("quiet"),
        stdin_name: options.get_str("stdin-name").unwrap_or("<stdin>"),
        excluded: texts_of(alloc, options, "exclude")?,
        paths: texts_of(alloc, options, "paths")?,
    }))
}

/// The word that says what is to be done, or that of which the help is wanted; empty where there is none.
pub(crate) fn asked_word(words: &[String]) -> &str {
    match words {
        [_, help, word, ..] if help.as_str() == "help" => word.as_str(),
        [_, word, ..] => word.as_str(),
        _ => "",
    }
}

fn task_of(word: &str, options: &ArgMatches<'_>) -> Task {
    match word {
        "check" | "check-two" => Task::Check,
        "format" | "format-two" => Task::Format(change_of(options)),
        "runtime" => Task::Runtime,
        "json" if options.get_flag("spans") => Task::SpannedJson,
        "json" => Task::Json,
        _ => Task::FromJson(Conversion {
            with_junk: options.get_flag("with-junk"),
            splits_lines: options.get_flag("split-lines"),
        }),
    }
}

fn change_of(options: &ArgMatches<'_>) -> Change {
    if options.get_flag("write") {
        Change::Write
    } else if options.get_flag("check") {
        Change::Name
    } else if options.get_flag("diff") {
        Change::Show
    } else {
        Change::Print
    }
}

/// What the options say. A word that ends in `-two` reads by edition two.
fn options_of(word: &str, options: &ArgMatches<'_>) -> Options {
    Options {
        edition: edition_of(word, options),
        output: output_of(options),
        nesting: options.get_one::<usize>("nesting"),
        color: color_of(options),
        blank_lines: blank_lines_of(options),
    }
}

fn edition_of(word: &str, options: &ArgMatches<'_>) -> Option<Edition> {
    if word.ends_with("-two") {
        return Some(Edition::Two);
    }
    match options.get_str("edition")? {
        "2" => Some(Edition::Two),
        _ => Some(Edition::One),
    }
}

fn output_of(options: &ArgMatches<'_>) -> Option<Output> {
    output_of_name(options.get_str("output")?)
}

fn color_of(options: &ArgMatches<'_>) -> Option<Color> {
    color_of_name(options.get_str("color")?)
}

fn blank_lines_of(options: &ArgMatches<'_>) -> Option<BlankLines> {
    blank_lines_of_name(options.get_str("blank-lines")?)
}
