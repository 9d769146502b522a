//! The parsers, and what is done with a tree.

ghost use Rattle.std.specs.Prelude.{◌+◌, ◌^◌, ◌<◌, length};

use crate::timing::clock::duration_of;
use fluent_syntax::parser::{self, ParseFault};
use fluent_syntax::spans;
use std::alloc::AllocError;
use std::io;
use std::time::{Clock, Duration, Instant};

pub(crate) fn parse_borrowed<R: Clock + AllocGlobal>(rt: &R, text: &str) -> io::Result<Duration>
    requires { length text.now + 1 < 2 ^ 64 }
{
    duration_of(rt, || parser::parse(rt.alloc(), text))
}

pub(crate) fn parse_owned<R: Clock + AllocGlobal>(rt: &R, text: &str) -> io::Result<Duration>
    requires { length text.now + 1 < 2 ^ 64 }
{
    let copy = String::from_str(rt.alloc(), text)?;
    duration_of(rt, || parser::parse(rt.alloc(), copy))
}

pub(crate) fn parse_runtime_borrowed<R: Clock + AllocGlobal>(
    rt: &R,
    text: &str,
) -> io::Result<Duration>
    requires { length text.now + 1 < 2 ^ 64 }
{
    duration_of(rt, || parser::parse_runtime(rt.alloc(), text))
}

pub(crate) fn parse_runtime_owned<R: Clock + AllocGlobal>(
    rt: &R,
    text: &str,
) -> io::Result<Duration>
    requires { length text.now + 1 < 2 ^ 64 }
{
    let copy = String::from_str(rt.alloc(), text)?;
    duration_of(rt, || parser::parse_runtime(rt.alloc(), copy))
}

pub(crate) fn spans<R: Clock + AllocGlobal>(rt: &R, text: &str) -> io::Result<Duration>
    requires { length text.now + 1 < 2 ^ 64 }
{
    duration_of(rt, || spans::parse_spans(rt.alloc(), text))
}

pub(crate) fn runtime_spans<R: Clock + AllocGlobal>(rt: &R, text: &str) -> io::Result<Duration>
    requires { length text.now + 1 < 2 ^ 64 }
{
    duration_of(rt, || spans::parse_runtime_spans(rt.alloc(), text))
}

/// A copy of the tree over lent texts.
pub(crate) fn clone_tree<R: Clock + AllocGlobal>(rt: &R, text: &str) -> io::Result<Duration>
    requires { length text.now + 1 < 2 ^ 64 }
{
    let (tree, _errors) = parser::recovered(rt.alloc(), parser::parse(rt.alloc(), text))?;
    duration_of(rt, || tree.try_clone(rt.alloc()))
}

/// The tree given back to the allocator.
pub(crate) fn drop_tree<R: Clock + AllocGlobal>(rt: &R, text: &str) -> io::Result<Duration>
    requires { length text.now + 1 < 2 ^ 64 }
{
    let (tree, _errors) = parser::recovered(rt.alloc(), parser::parse(rt.alloc(), text))?;
    duration_of(rt, || drop(tree))
}

/// The tree of lent texts from the tree of spans.
pub(crate) fn resolve_spans<R: Clock + AllocGlobal>(rt: &R, text: &str) -> io::Result<Duration>
    requires { length text.now + 1 < 2 ^ 64 }
{
    // Not `duration_of`: what is known of the spans doesn't reach a closure.
    let answer = spans::parse_spans(rt.alloc(), text);
    let start = Instant::now(rt)?;
    let texts = match &answer {
        Ok(tree) | Err(ParseFault::Syntax(tree, _)) => spans::resolve(rt.alloc(), &text, tree)?,
        Err(ParseFault::Memory) => return Err(AllocError)?,
    };
    let time = start.elapsed(rt)?;
    drop(texts);
    Ok(time)
}
