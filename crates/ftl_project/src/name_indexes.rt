//! What texts say of names.
ghost use Rattle.std.specs.Prelude.{◌≡◌, ◌+◌, ◌<◌, ◌^◌, IfErr, IfOk, length};
ghost use Rattle.ftl_project.specs.Faults.{IsTooDeep, IsUnparsed};
ghost use Rattle.ftl_project.specs.NameIndexes.{IsNameIndex, IsShort};

use crate::fault::Fault;
use fluent_syntax::parser::recovered;
use fluent_syntax::spans::parse_spans_within;
use fluent_syntax_names::{NameIndex, name_index_of};
use ftl_files::Reading;
use std::alloc::Global;

/// What the text says of names. What is junk in it defines nothing.
pub(crate) fn name_index<'a>(
    alloc: Global,
    text: &'a str,
    reading: Reading,
) -> Result<NameIndex<'a>, Fault>
    ensures name_index { IfOk result (IsNameIndex reading.edition text.now) }
    ensures short { IfOk result IsShort }
    ensures fault { IfErr result (IsUnparsed (IsTooDeep reading text.now)) }
{
    if text.len() == usize::MAX {
        return Err(Fault::Memory);
    }
    let Ok(answer) = parse_spans_within(alloc, text, reading.edition, reading.nesting) else {
        return Err(Fault::TooDeep);
    };
    let (tree, _) = recovered(alloc, answer)?;
    let name_index = name_index_of(alloc, text, &tree.body)?;
    Ok(name_index)
}
