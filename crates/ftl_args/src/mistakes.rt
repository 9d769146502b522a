//! Mistakes in the words.

use crate::commands::command_line;
use crate::requested::asked_word;
use crate::usage::usage_of;
use clap::error::ErrorKind;
use clap::{Arg, Error};
use std::alloc::{AllocError, Global};
use std::fmt::Write;

/// The exit status of what is no request: 0 where help was asked for, 4 where memory was refused, else 2.
pub fn status_of(error: &Error) -> u8 {
    match error.kind() {
        ErrorKind::DisplayHelp | ErrorKind::DisplayVersion => 0,
        ErrorKind::OutOfMemory => 4,
        _ => 2,
    }
}

/// What is wrong with the words, on a line, where there is one; and on the last line, without its LF, how the word is
/// called that was meant, or which words there are. The program's own name is the first of the words.
///
/// `AllocError`: a growth was refused.
pub fn mistake(alloc: Global, words: &[String], error: &Error) -> Result<String, AllocError> {
    let mut lines = String::new(alloc);
    let word = asked_word(words);
    if error.kind() != ErrorKind::MissingSubcommand {
        let printed_error = format!(in alloc; "{error}")?;
        push_reason(&mut lines, printed_error.as_str())?;
        match error.kind() {
            _ if lines.as_str().contains(';') => (),
            ErrorKind::InvalidSubcommand => push_abbreviated(&mut lines, alloc, word)?,
            ErrorKind::UnknownArgument => push_takers(&mut lines, alloc, printed_error.as_str())?,
            _ => (),
        }
        lines.push('\n')?;
    }
    lines.push_str(usage_of(alloc, word)?.as_str())?;
    Ok(lines)
}

/// Adds what is wrong, with what is missing, which values are possible, and what may have been meant.
fn push_reason(line: &mut String, printed_error: &str) -> Result<(), AllocError> {
    for part in printed_error.lines() {
        if let Some(reason) = part.strip_prefix("error: ") {
            line.push_str("ftl: ")?;
            push_as_word(line, reason)?;
        } else if let Some(tip) = part.strip_prefix("  tip: ") {
            push_tip(line, tip)?;
        } else if let Some(values) = part.strip_prefix("  [") {
            line.push_str("; ")?;
            line.push_str(values.trim_end_matches(']'))?;
        } else if let Some(argument) = part.strip_prefix("  ") {
            write!(line, " {argument}")?;
        }
    }
    Ok(())
}

/// Adds what may have been meant. That an option is a path is not: a path of that name is written as `./--write`.
fn push_tip(line: &mut String, tip: &str) -> Result<(), AllocError> {
    if tip.starts_with("to pass '") {
        return Ok(());
    }
    line.push_str("; ")?;
    push_as_word(line, tip)
}

/// Adds the text, where a subcommand is called a word and control characters are escaped.
fn push_as_word(line: &mut String, text: &str) -> Result<(), AllocError> {
    for (index, part) in text.split("subcommand").enumerate() {
        if index != 0 {
            line.push_str("word")?;
        }
        for c in part.chars() {
            if c < ' ' || c == '\u{7F}' {
                for escaped in c.escape_default() {
                    line.push(escaped)?;
                }
            } else {
                line.push(c)?;
            }
        }
    }
    Ok(())
}

/// Adds the word that this one abbreviates, as `fmt` does `format`, if there is one.
fn push_abbreviated(line: &mut String, alloc: Global, short: &str) -> Result<(), AllocError> {
    for command in command_line(alloc, "")?.get_subcommands() {
        if abbreviates(short, command.get_name()) {
            return write!(line, "; a similar word exists: '{}'", command.get_name());
        }
    }
    Ok(())
}

/// Adds the words that take the option that is reported as unexpected, if there are some.
fn push_takers(line: &mut String, alloc: Global, printed_error: &str) -> Result<(), AllocError> {
    let Some(option) = unexpected_argument(printed_error) else {
        return Ok(());
    };
    let mut is_first = true;
    for command in command_line(alloc, "")?.get_subcommands() {
        if command
            .get_arguments()
            .iter()
            .any(|known| has_option_name(known, option))
        {
            line.push_str(if is_first {
                "; words that take it: "
            } else {
                ", "
            })?;
            line.push_str(command.get_name())?;
            is_first = false;
        }
    }
    Ok(())
}

/// The argument that is reported as unexpected.
fn unexpected_argument(printed_error: &str) -> Option<&str> {
    let reason = printed_error.lines().next()?;
    let argument = reason.strip_prefix("error: unexpected argument '")?;
    argument.strip_suffix("' found")
}

/// Whether the option is called so on a command line, as `--write` or `-w`.
fn has_option_name(option: &Arg<'_>, name: &str) -> bool {
    match name.strip_prefix("--") {
        Some(long) => option.get_long() == Some(long),
        None => match (name.strip_prefix('-'), option.get_short()) {
            (Some(short), Some(letter)) => short.chars().eq([letter]),
            _ => false,
        },
    }
}

/// Whether it has two or more of the word's letters, in their order, and the first one first.
fn abbreviates(short: &str, word: &str) -> bool {
    let mut rest = word.chars();
    for letter in short.chars() {
        if !rest.any(|other| other == letter) {
            return false;
        }
    }
    short.len() > 1 && short.chars().next() == word.chars().next()
}
