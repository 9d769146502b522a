//! Unescaped texts.

use crate::alike::{assert_holds, assert_same_text};
use fluent_syntax::unicode::{unescape_unicode, unescape_unicode_to_string};
use std::alloc::{AllocError, Global};
use std::borrow::CowStr;
use std::test::Fail;

fn assert_unescaped(alloc: Global, input: &str, expected: &str) -> Result<(), Fail> {
    let text = unescape_unicode_to_string(alloc, input)?.into_owned(alloc)?;
    assert_same_text(alloc, input, text.as_str(), expected)?;
    let mut sink = String::new(alloc);
    let is_whole = unescape_unicode(&mut sink, input).is_ok();
    assert_holds(alloc, input, is_whole && sink.as_str() == expected)
}

#[test]
fn reads_escapes(rt: HostRuntime) -> Result<(), Fail> {
    assert_unescaped(rt.alloc(), "a\\u5bd2\\{b", "a\u{5bd2}\u{fffd}b")
}

/// Whether what the text is unescaped to is the text itself.
fn is_borrowed(alloc: Global, input: &str) -> Result<bool, AllocError> {
    match unescape_unicode_to_string(alloc, input)? {
        CowStr::Borrowed(text) => Ok(text == input),
        CowStr::Owned(_) => Ok(false),
    }
}

#[test]
fn borrows_without_a_backslash(rt: HostRuntime) -> Result<(), Fail> {
    let alloc = rt.alloc();
    assert_holds(alloc, "Foo", is_borrowed(alloc, "Foo")?)?;
    assert_holds(alloc, "no text", is_borrowed(alloc, "")?)
}
