//! A tree as JSON is written as the text of the tree.
ghost use Rattle.std.specs.Prelude.{◌≡◌, Err, IfErr, IfOk, string_bytes};
ghost use Rattle.fluent_syntax_tree.specs.View.{resource_view};
ghost use Rattle.ftl.specs.FromJson.{IsFault, IsSpelled, IsTextOf, json_status, nests_deeper, opened_after};

use fluent_syntax::ast::Resource;
use fluent_syntax::serializer::serialize;
use fluent_syntax_json::{ValueFault, from_value};
use serde_json::Value;
use std::alloc::{AllocError, Global};
use std::fmt;

/// The deepest that arrays and objects may nest.
const GREATEST_DEPTH: usize = 127;

/// Why a text was not read as the JSON of a tree.
#[derive(Clone, Copy, Debug, PartialEq, Eq)]
pub enum JsonFault {
    /// It is no JSON, from about there on: the line and the column in bytes, both from 1.
    Syntax(usize, usize),
    /// It is no JSON, or its arrays and objects nest deeper than 127.
    TooDeep,
    /// It is JSON that spells no tree.
    Shape,
    /// A growth was refused.
    Memory,
}

impl JsonFault {
    /// The exit status: 3, 4 or 6.
    pub fn status(&self) -> u8
        ensures { result ≡ json_status self.now }
    {
        match self {
            JsonFault::Syntax(..) | JsonFault::Shape => 3,
            JsonFault::Memory => 4,
            JsonFault::TooDeep => 6,
        }
    }
}

impl fmt::Display for JsonFault {
    fn fmt<W: fmt::Write>(&self, f: &mut fmt::Formatter<W>) -> fmt::Result {
        match self {
            JsonFault::Syntax(line, column) => write!(f, "is no JSON from {line}:{column} on"),
            JsonFault::TooDeep => f.write_str("nests deeper than JSON may"),
            JsonFault::Shape => f.write_str("is JSON that spells no tree"),
            JsonFault::Memory => f.write_str("no memory"),
        }
    }
}

/// The tree that a JSON text spells.
///
/// `Syntax` and `TooDeep`: there is no JSON that nests at most 127 deep. `Shape`: it spells no tree. `Memory`: a growth
/// was refused.
pub fn tree_of_json(alloc: Global, json: &str) -> Result<Resource<String>, JsonFault>
    ensures spelled { IfOk result (λ tree. IsSpelled json.now (resource_view string_bytes tree)) }
    ensures fault { IfErr result (IsFault json.now) }
{
    let value = match Value::from_str(alloc, json) {
        Ok(value) => value,
        Err(error) if error.is_memory() => return Err(JsonFault::Memory),
        Err(_) if nests_deeper(json, GREATEST_DEPTH) => return Err(JsonFault::TooDeep),
        Err(error) => return Err(JsonFault::Syntax(error.line(), error.column())),
    };
    match from_value(alloc, &value) {
        Ok(tree) => Ok(tree),
        Err(ValueFault::Shape) => Err(JsonFault::Shape),
        Err(ValueFault::Memory) => Err(JsonFault::Memory),
    }
}

/// The text of the tree that a JSON text spells, without its junk. The faults are those of `tree_of_json`.
pub fn text_of_json(alloc: Global, json: &str) -> Result<String, JsonFault>
    ensures text { IfOk result (λ text. IsTextOf json.now (string_bytes text)) }
    ensures fault { IfErr result (IsFault json.now) }
{
    let tree = tree_of_json(alloc, json)?;
    match serialize(alloc, &tree) {
        Ok(text) => Ok(text),
        Err(AllocError) => Err(JsonFault::Memory),
    }
}

/// What is open in a JSON text.
#[derive(Clone, Copy)]
pub(crate) struct Opened {
    /// How many brackets and braces, outside of strings.
    brackets: usize,
    in_string: bool,
    /// Whether a backslash in the string comes before what follows.
    is_escaped: bool,
}

impl Opened {
    /// What is open after a byte more.
    fn after(self, byte: u8) -> Opened
        ensures { result ≡ opened_after self byte }
    {
        if self.in_string {
            return Opened {
                in_string: self.is_escaped || byte != b'"',
                is_escaped: !self.is_escaped && byte == b'\\',
                ..self
            };
        }
        match byte {
            b'"' => Opened {
                in_string: true,
                ..self
            },
            b'[' | b'{' => Opened {
                brackets: self.brackets.saturating_add(1),
                ..self
            },
            b']' | b'}' => Opened {
                brackets: self.brackets.saturating_sub(1),
                ..self
            },
            _ => self,
        }
    }
}

/// Whether more than so many brackets and braces are open at once, outside of strings.
fn nests_deeper(json: &str, depth: usize) -> bool
    ensures { result ≡ nests_deeper depth json.now }
{
    let mut opened = Opened {
        brackets: 0,
        in_string: false,
        is_escaped: false,
    };
    for byte in json.as_bytes() {
        opened = opened.after(*byte);
        if opened.brackets > depth {
            return true;
        }
    }
    false
}
