//! Examples of calling the library, each a file of its own:
//!
//!     examples lint < FILE
//!     examples build
//!     examples edit NAME TEXT < FILE
#![tactic(auto)]

mod build;
mod counted;
mod edit;
mod lint;

use std::env;
use std::io::ErrorKind;
use std::process::ExitCode;

/// The status for wrong words.
const WRONG_ARGUMENTS: u8 = 2;

fn main(rt: HostRuntime) -> anyhow::Result<ExitCode> {
    let mut words = match env::args(&rt) {
        Ok(words) => words.skip(1),
        // A word that is not UTF-8 names no example.
        Err(error) if error.kind() == ErrorKind::InvalidData => return refuse(&rt),
        Err(error) => return Err(error)?,
    };
    let Some(word) = words.next() else {
        return refuse(&rt);
    };
    match (word.as_str(), words.next(), words.next(), words.next()) {
        ("lint", None, None, None) => lint::lint(&rt)?,
        ("build", None, None, None) => build::build(&rt)?,
        ("edit", Some(name), Some(value), None) => edit::edit(&rt, name.as_str(), value.as_str())?,
        _ => return refuse(&rt),
    }
    Ok(ExitCode::from(0))
}

fn refuse<R: Eprint>(rt: &R) -> anyhow::Result<ExitCode> {
    rt.eprintln("usage: examples lint < FILE | build | edit NAME TEXT < FILE")?;
    Ok(ExitCode::from(WRONG_ARGUMENTS))
}
