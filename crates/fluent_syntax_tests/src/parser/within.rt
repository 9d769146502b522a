//! The calls that read within a bound on nesting.

use crate::alike::assert_holds;
use fluent_syntax::parser::{
    Edition, TooDeep, parse_edition, parse_runtime_edition, parse_runtime_within, parse_within,
};
use fluent_syntax::spans::{
    parse_runtime_spans_edition, parse_runtime_spans_within, parse_spans_edition,
    parse_spans_within,
};
use std::alloc::Global;
use std::test::Fail;

/// Two placeables, one in the other.
const TEXT: &str = "a = {{b}}\n";

/// Whether each call reads the text within 2 as without a bound.
fn is_read(alloc: Global, edition: Edition) -> bool {
    parse_within(alloc, TEXT, edition, 2) == Ok(parse_edition(alloc, TEXT, edition))
        && parse_runtime_within(alloc, TEXT, edition, 2)
            == Ok(parse_runtime_edition(alloc, TEXT, edition))
        && parse_spans_within(alloc, TEXT, edition, 2)
            == Ok(parse_spans_edition(alloc, TEXT, edition))
        && parse_runtime_spans_within(alloc, TEXT, edition, 2)
            == Ok(parse_runtime_spans_edition(alloc, TEXT, edition))
}

/// Whether no call reads it within 1.
fn is_refused(alloc: Global, edition: Edition) -> bool {
    parse_within(alloc, TEXT, edition, 1) == Err(TooDeep)
        && parse_runtime_within(alloc, TEXT, edition, 1) == Err(TooDeep)
        && parse_spans_within(alloc, TEXT, edition, 1) == Err(TooDeep)
        && parse_runtime_spans_within(alloc, TEXT, edition, 1) == Err(TooDeep)
}

#[test]
fn nests_as_deeply(rt: HostRuntime) -> Result<(), Fail> {
    let alloc = rt.alloc();
    let is_so = is_read(alloc, Edition::One) && is_refused(alloc, Edition::One);
    assert_holds(alloc, "edition one", is_so)?;
    let is_so = is_read(alloc, Edition::Two) && is_refused(alloc, Edition::Two);
    assert_holds(alloc, "edition two", is_so)
}
