//! The calls by name.

ghost use Rattle.std.specs.Prelude.{◌+◌, ◌^◌, ◌<◌, length};

use crate::timing::{json, parsing, writing};
use std::io;
use std::time::{Clock, Duration};

/// How long the call of this name takes on the text: `parse`, `runtime` (both over `&str`), `parse_string` and
/// `runtime_string` (over `String`), `spans`, `runtime_spans`, `resolve`, `clone`, `drop`, `serialize`,
/// `serialize_room` (onto a sink with room), `unescape`, `to_value` and `from_value`. None for another name.
pub(crate) fn time_of<R: Clock + AllocGlobal>(
    rt: &R,
    call: &str,
    text: &str,
) -> io::Result<Option<Duration>>
    requires { length text.now + 1 < 2 ^ 64 }
{
    Ok(Some(match call {
        "parse" => parsing::parse_borrowed(rt, text)?,
        "parse_string" => parsing::parse_owned(rt, text)?,
        "runtime" => parsing::parse_runtime_borrowed(rt, text)?,
        "runtime_string" => parsing::parse_runtime_owned(rt, text)?,
        "spans" => parsing::spans(rt, text)?,
        "runtime_spans" => parsing::runtime_spans(rt, text)?,
        "resolve" => parsing::resolve_spans(rt, text)?,
        "clone" => parsing::clone_tree(rt, text)?,
        "drop" => parsing::drop_tree(rt, text)?,
        "serialize" => writing::serialize_tree(rt, text)?,
        "serialize_room" => writing::serialize_into_room(rt, text)?,
        "unescape" => writing::unescape_texts(rt, text)?,
        "to_value" => json::value_of_tree(rt, text)?,
        "from_value" => json::tree_of_value(rt, text)?,
        _ => return Ok(None),
    }))
}
