//! JSON values.

ghost use Rattle.std.specs.Prelude.{◌+◌, ◌^◌, ◌<◌, length};

use crate::timing::clock::duration_of;
use fluent_syntax::parser;
use fluent_syntax_json::{from_value, to_value};
use std::io;
use std::time::{Clock, Duration};

pub(crate) fn value_of_tree<R: Clock + AllocGlobal>(rt: &R, text: &str) -> io::Result<Duration>
    requires { length text.now + 1 < 2 ^ 64 }
{
    let copy = String::from_str(rt.alloc(), text)?;
    let (tree, _errors) = parser::recovered(rt.alloc(), parser::parse(rt.alloc(), copy))?;
    duration_of(rt, || to_value(rt.alloc(), &tree))
}

pub(crate) fn tree_of_value<R: Clock + AllocGlobal>(rt: &R, text: &str) -> io::Result<Duration>
    requires { length text.now + 1 < 2 ^ 64 }
{
    let copy = String::from_str(rt.alloc(), text)?;
    let (tree, _errors) = parser::recovered(rt.alloc(), parser::parse(rt.alloc(), copy))?;
    let value = to_value(rt.alloc(), &tree)?;
    duration_of(rt, || from_value(rt.alloc(), &value))
}
