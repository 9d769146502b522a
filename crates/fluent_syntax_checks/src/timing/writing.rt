//! The serializer, and unescaping.

ghost use Rattle.std.specs.Prelude.{◌+◌, ◌^◌, ◌<◌, length};

use crate::timing::clock::duration_of;
use fluent_syntax::serializer::{self, Options};
use fluent_syntax::{parser, unicode};
use std::io;
use std::time::{Clock, Duration};

pub(crate) fn serialize_tree<R: Clock + AllocGlobal>(rt: &R, text: &str) -> io::Result<Duration>
    requires { length text.now + 1 < 2 ^ 64 }
{
    let (tree, _errors) = parser::recovered(rt.alloc(), parser::parse(rt.alloc(), text))?;
    duration_of(rt, || serializer::serialize(rt.alloc(), &tree))
}

/// Onto a text that has the room for twice the source.
pub(crate) fn serialize_into_room<R: Clock + AllocGlobal>(
    rt: &R,
    text: &str,
) -> io::Result<Duration>
    requires { length text.now + 1 < 2 ^ 64 }
{
    let (tree, _errors) = parser::recovered(rt.alloc(), parser::parse(rt.alloc(), text))?;
    let mut written = String::with_capacity(rt.alloc(), text.len().saturating_mul(2))?;
    duration_of(rt, || {
        serializer::serialize_to(&mut written, &tree, Options::default())
    })
}

/// The escapes of the whole text.
pub(crate) fn unescape_texts<R: Clock + AllocGlobal>(rt: &R, text: &str) -> io::Result<Duration> {
    duration_of(rt, || unicode::unescape_unicode_to_string(rt.alloc(), text))
}
