//! Why an attribute isn't read.
//!
//! The list of a message's attributes ends without an error where the next one is refused, and what follows is junk.
//! Here that refusal can be asked for.
ghost use Rattle.std.specs.Prelude.{◌-◌, ◌≤◌, length, IfErr, IfOk, IfSome};
ghost use Rattle.fluent_syntax_grammar.specs.Entries.{attribute_of};
ghost use Rattle.fluent_syntax_grammar.specs.Grammar.{within};
ghost use Rattle.fluent_syntax_grammar.specs.Nesting.{TooDeep};
ghost use Rattle.fluent_syntax_parser.specs.Refusals.{IsAttributeRefusal};
ghost use Rattle.fluent_syntax_parser.specs.Halts.{HaltsWithin, OnHalt};

use crate::fault::{ReadFault, Refusal};
use crate::options::Halt;
use crate::reader::Reader;
use crate::source::Source;
use crate::texts::AsSpans;
use fluent_syntax_tree::edition::Edition;
use fluent_syntax_tree::errors::ParserError;
use std::alloc::Global;

/// Why no attribute begins at the place, which may be the start of its line: what the grammar refuses there, and where,
/// as the error of an entry says it. It has no `slice`, since no junk is its own. `None` where an attribute is read.
///
/// At most `nesting` placeables and argument lists may be open at once. It is never `TooDeep` where as many may nest
/// as bytes are left.
pub fn attribute_refusal(
    alloc: Global,
    text: &str,
    edition: Edition,
    nesting: usize,
    start: usize,
) -> Result<Option<ParserError>, Halt>
    requires { start ≤ length text.now }
    ensures refusal { IfOk result (IsAttributeRefusal edition text.now start) }
    ensures place { IfOk result (λ found. IfSome found (λ error. error.pos.start ≤ length text.now)) }
    ensures nests { IfErr result (HaltsWithin nesting (length text.now - start)) }
    ensures deeper { let R = within edition text.now nesting in
        IfErr result (OnHalt (TooDeep (attribute_of edition text.now R) start)) }
{
    let reader = Reader {
        source: Source {
            bytes: text.as_bytes(),
        },
        alloc,
        edition,
        texts: &AsSpans,
    };
    match reader.attribute_parts(nesting, start) {
        Ok(_) => Ok(None),
        Err(ReadFault::Refused { fault, from, place }) => {
            let refusal = Refusal { fault, from, place };
            let kind = reader.source.error_kind(alloc, refusal)?;
            Ok(Some(ParserError {
                pos: refusal.pos(),
                slice: None,
                kind,
            }))
        }
        Err(ReadFault::TooDeep) => Err(Halt::TooDeep),
        Err(ReadFault::Memory) => Err(Halt::Memory),
    }
}
