//! A call with its requests for memory refused in turn.

use crate::refusals::answers::Answer;
use crate::refusals::requests::{refuse, was_refused};
use crate::refusals::tally::Tally;
use std::alloc::{AllocError, Global};
use std::io;

/// More requests than a call makes.
const REQUESTS_LIMIT: u32 = 100_000;

/// Calls with the first request refused, then with the second, and so on, until a call made no request
/// that was refused. What `make` gives the call is made with ample memory.
pub(crate) fn refuse_each_request<
    I,
    A: Answer + Drop,
    M: Fn() -> Result<I, AllocError>,
    F: Fn(I) -> A,
>(alloc: Global, make: M, call: F) -> Result<Tally, AllocError>
    requires make { M.IsAlwaysCallable make }
    requires call { F.IsAlwaysCallable call }
{
    let ample = call(make()?);
    let mut tally = Tally::NONE.wrong_if(ample.is_want_of_memory(&ample));
    for n in 1..REQUESTS_LIMIT {
        let given = make()?;
        refuse(alloc, n);
        let answer = call(given);
        if !was_refused(alloc) {
            return Ok(tally.wrong_if(!answer.is_same(&ample)));
        }
        tally.refused = tally.refused.saturating_add(1);
        let fits = answer.is_same(&ample) || answer.is_want_of_memory(&ample);
        tally = tally.wrong_if(!fits);
    }
    Ok(tally.wrong_if(true))
}

/// For a call that is given nothing of its own.
pub(crate) fn nothing() -> Result<(), AllocError> {
    Ok(())
}

/// A call over each of the texts; prints what was seen of it.
pub(crate) fn over<'t, R: Print + AllocGlobal, F: Fn(Global, &'t str) -> Result<Tally, AllocError>>(
    rt: &R,
    name: &str,
    texts: &[&'t str],
    call: F,
) -> io::Result<Tally>
    requires { F.IsAlwaysCallable call }
{
    let mut total = Tally::NONE;
    for text in texts {
        let tally = call(rt.alloc(), *text)?;
        if tally.wrong > 0 {
            println!(rt; "{name}: a wrong answer for {text:?}")?;
        }
        total = total.and(tally);
    }
    let Tally { refused, wrong } = total;
    println!(rt; "{name}: {refused} requests refused, {wrong} wrong answers")?;
    Ok(total)
}
