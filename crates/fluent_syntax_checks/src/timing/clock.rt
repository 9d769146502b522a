//! The time that a call takes.

use std::io;
use std::time::{Clock, Duration, Instant};

/// How long the call takes. What it answers is dropped once the clock has stopped.
pub(crate) fn duration_of<R: Clock, T: Drop, F: FnOnce() -> T>(
    rt: &R,
    call: F,
) -> io::Result<Duration>
    requires { F.IsAlwaysCallable call }
{
    let start = Instant::now(rt)?;
    let answer = call();
    let time = start.elapsed(rt)?;
    drop(answer);
    Ok(time)
}
