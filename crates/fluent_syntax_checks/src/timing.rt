//! Times a call of the library on a text from standard input.
//!
//! For each round it prints a line: the call's name and its nanoseconds. The calls are those of `calls::time_of`.
//! `tests/speed` runs it in turns with another program that is asked in the same way.

ghost use Rattle.std.specs.Prelude.{◌+◌, ◌^◌, ◌<◌, length};

mod calls;
mod clock;
mod json;
mod parsing;
mod writing;

use std::io;
use std::time::Clock;

/// Prints the time of each round on the text from standard input; false where there is no such call, where `rounds` is
/// no number, and for a text that can't be timed.
pub(crate) fn print_times<R: Clock + Input + Print + AllocGlobal>(
    rt: &R,
    call: &str,
    rounds: &str,
) -> io::Result<bool> {
    let Ok(rounds) = rounds.parse::<u32>() else {
        return Ok(false);
    };
    let text = io::read_to_string(rt.alloc(), rt.reader())?;
    if text.len() == usize::MAX {
        return Ok(false);
    }
    print_rounds(rt, call, rounds, text.as_str())
}

/// Prints the time of each round; false where there is no such call.
fn print_rounds<R: Clock + Print + AllocGlobal>(
    rt: &R,
    call: &str,
    rounds: u32,
    text: &str,
) -> io::Result<bool>
    requires { length text.now + 1 < 2 ^ 64 }
{
    for _ in 0..rounds {
        let Some(time) = calls::time_of(rt, call, text)? else {
            return Ok(false);
        };
        let nanoseconds = time.as_nanos();
        println!(rt; "{call} {nanoseconds}")?;
    }
    Ok(true)
}
