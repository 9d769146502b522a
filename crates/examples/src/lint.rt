//! A linter: it reads a Fluent file from standard input and prints its errors with their places, then the messages and
//! terms that an entry refers to and the file doesn't define.

ghost use Rattle.std.specs.Prelude.{◌+◌, ◌≤◌, ◌^◌, ◌<◌, length, All};

mod names;
mod references;

use crate::lint::names::{Name, definitions_of};
use crate::lint::references::references;
use fluent_syntax::ast::Resource;
use fluent_syntax::parser::{ParserError, parse, recovered};
use fluent_syntax::spans::Lines;
use std::io;

pub(crate) fn lint<R: Input + Print + AllocGlobal>(rt: &R) -> anyhow::Result<()> {
    let text = io::read_to_string(rt.alloc(), rt.reader())?;
    if text.len() == usize::MAX {
        anyhow::bail!("the file is too long");
    }
    lint_text(rt, text.as_str())
}

fn lint_text<R: Print + AllocGlobal>(rt: &R, text: &str) -> anyhow::Result<()>
    requires { length text.now + 1 < 2 ^ 64 }
{
    let (tree, errors) = recovered(rt.alloc(), parse(rt.alloc(), text))?;
    print_errors(rt, text, errors.as_slice())?;
    print_undefined(rt, &tree)
}

fn print_errors<R: Print>(rt: &R, text: &str, errors: &[ParserError]) -> anyhow::Result<()>
    requires short { length text.now + 1 < 2 ^ 64 }
    requires places { All (λ error. error.pos.start ≤ length text.now) errors.now }
{
    let mut lines = Lines::new(text);
    for error in errors {
        let (line, column) = lines.line_column(error.pos.start);
        println!(rt; "{line}:{column}: {error}")?;
    }
    Ok(())
}

fn print_undefined<R: Print + AllocGlobal>(rt: &R, tree: &Resource<&str>) -> anyhow::Result<()> {
    let defined = definitions_of(rt.alloc(), tree)?;
    for entry in &tree.body {
        let Some(name) = Name::of(entry) else {
            continue;
        };
        for reference in &references(rt.alloc(), entry)? {
            if !defined.contains(reference) {
                println!(rt; "{name} refers to {reference}, which is not defined")?;
            }
        }
    }
    Ok(())
}
