//! Checks the library from outside, as a program:
//!
//!     fluent_syntax_checks texts
//!     fluent_syntax_checks tables
//!     fluent_syntax_checks edits
//!     fluent_syntax_checks trees < FILE
//!     fluent_syntax_checks refusals
//!     fluent_syntax_checks time CALL ROUNDS < FILE
//!
//! `texts` replays texts with known answers, `tables` rows with known answers; `edits` makes edits of many texts, and
//! `trees` writes trees and reads them back; `refusals` refuses each request for memory of each call in turn, and
//! `time` times a call.
#![tactic(auto)]

mod edits;
mod refusals;
mod tables;
mod texts;
mod timing;
mod trees;

use std::env;
use std::io::ErrorKind;
use std::process::ExitCode;

/// The status for wrong words and for a text that can't be timed.
const WRONG_ARGUMENTS: u8 = 2;

fn main(rt: HostRuntime) -> anyhow::Result<ExitCode> {
    let mut words = match env::args(&rt) {
        Ok(words) => words.skip(1),
        // A word that is not UTF-8 is none of these.
        Err(error) if error.kind() == ErrorKind::InvalidData => return refuse(&rt),
        Err(error) => return Err(error)?,
    };
    let Some(word) = words.next() else {
        return refuse(&rt);
    };
    match (word.as_str(), words.next(), words.next(), words.next()) {
        ("texts", None, None, None) => {
            texts::replay(&rt)?;
            Ok(ExitCode::from(0))
        }
        ("tables", None, None, None) => {
            let different = tables::replay(&rt)?;
            Ok(ExitCode::from(u8::from(different > 0)))
        }
        ("edits", None, None, None) => {
            let is_refused = edits::many(&rt)?;
            Ok(ExitCode::from(u8::from(is_refused)))
        }
        ("trees", None, None, None) => {
            let is_broken = trees::read_back(&rt)?;
            Ok(ExitCode::from(u8::from(is_broken)))
        }
        ("refusals", None, None, None) => {
            let seen = refusals::calls(&rt)?;
            Ok(ExitCode::from(u8::from(seen.wrong > 0)))
        }
        ("time", Some(call), Some(rounds), None) => {
            if timing::print_times(&rt, call.as_str(), rounds.as_str())? {
                Ok(ExitCode::from(0))
            } else {
                refuse(&rt)
            }
        }
        _ => refuse(&rt),
    }
}

fn refuse<R: Eprint>(rt: &R) -> anyhow::Result<ExitCode> {
    rt.eprintln(
        "usage: fluent_syntax_checks texts | tables | edits | trees < FILE | refusals | time CALL ROUNDS < FILE",
    )?;
    Ok(ExitCode::from(WRONG_ARGUMENTS))
}
