//! How a word is called.

use crate::commands::command_line;
use clap::{Arg, Command};
use std::alloc::{AllocError, Global};
use std::fmt::Write;

/// How the word is called, with all its options; for what is no word, which words there are. On a line without its LF.
///
/// `AllocError`: a growth was refused.
pub fn usage_of(alloc: Global, word: &str) -> Result<String, AllocError> {
    let mut program = command_line(alloc, word)?;
    program.build()?;
    let mut line = String::from_str(alloc, "usage: ftl ")?;
    match program.find_subcommand(word) {
        Some(command) => push_call(&mut line, command)?,
        None => push_words(&mut line, &program)?,
    }
    Ok(line)
}

/// Adds the word, its options, and what else it takes.
fn push_call(line: &mut String, command: &Command<'_>) -> Result<(), AllocError> {
    line.push_str(command.get_name())?;
    for option in command.get_arguments() {
        if !option.is_positional() && option.get_long() != Some("help") {
            push_option(line, option)?;
        }
    }
    for argument in command.get_arguments() {
        if argument.is_positional() {
            write!(line, " {argument}")?;
        }
    }
    Ok(())
}

fn push_option(line: &mut String, option: &Arg<'_>) -> Result<(), AllocError> {
    match option.get_short() {
        Some(short) => write!(line, " [-{short}, {option}]"),
        None => write!(line, " [{option}]"),
    }
}

/// Adds the words. Those that read by edition two are known only where they are asked for.
fn push_words(line: &mut String, program: &Command<'_>) -> Result<(), AllocError> {
    for command in program.get_subcommands() {
        write!(line, "{}|", command.get_name())?;
    }
    line.push_str("check-two|format-two")
}
