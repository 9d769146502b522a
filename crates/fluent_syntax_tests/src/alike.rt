//! What a row of a table asks at its end: whether what was got is what was expected.
//!
//! Where it isn't, the test fails with both. A loop over a table calls a function of its row, and asserts nothing
//! itself: an assertion in a loop is proved with all that lives there, which takes several times as long.

ghost use Rattle.std.specs.Prelude.{◌≡◌, true, IfOk};

use std::alloc::Global;
use std::fmt::Debug;
use std::test::Fail;

/// Fails where it is not so.
pub fn assert_holds(alloc: Global, shows: &str, is_so: bool) -> Result<(), Fail>
    ensures { IfOk result (λ _. is_so ≡ true) }
{
    if is_so {
        return Ok(());
    }
    Err(format!(in alloc; "{shows}: not so")?.into())
}

/// Fails where the values differ.
pub fn assert_same<T: PartialEq + Debug>(
    alloc: Global,
    shows: &str,
    got: &T,
    expected: &T,
) -> Result<(), Fail>
    ensures { IfOk result (λ _. T.PartialEq.eq got.now expected.now ≡ true) }
{
    if *got == *expected {
        return Ok(());
    }
    Err(format!(in alloc; "{shows}: {got:?} in place of {expected:?}")?.into())
}

/// Fails where the texts differ.
pub fn assert_same_text(alloc: Global, shows: &str, got: &str, expected: &str) -> Result<(), Fail>
    ensures { IfOk result (λ _. got.now ≡ expected.now) }
{
    if got == expected {
        return Ok(());
    }
    Err(format!(in alloc; "{shows}: {got:?} in place of {expected:?}")?.into())
}
