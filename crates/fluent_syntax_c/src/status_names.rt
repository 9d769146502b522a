//! The version, and the names of statuses.
ghost use Rattle.std.specs.Prelude.{◌≡◌, ◌↔◌, Err, IfOk, None, map, option_map, slice_get};
ghost use Rattle.fluent_syntax_c.specs.Output.{LeavesOutput};
ghost use Rattle.fluent_syntax_c.specs.Status.{EndsAs};
ghost use Rattle.fluent_syntax_c.specs.StatusNames.{IsStatusName, status_name};

use crate::outputs::give;
use crate::status::Refusal;
use ftl::Outcome;
use std::alloc::Global;

/// The names of the statuses from 0 on.
const FIRST_NAMES: [&str; 14] = [
    "Clean",
    "SyntaxErrors",
    "WrongArgument",
    "NotUtf8",
    "NoMemory",
    "TooSmall",
    "TooDeep",
    "NoTree",
    "NotFound",
    "NotOneEntry",
    "ReadsOtherwise",
    "NoValue",
    "PartHasErrors",
    "Overlap",
];

/// The names of the rules of canonical trees, which are statuses from 101 on.
const RULE_NAMES: [&str; 29] = [
    "Junk",
    "EmptyMessage",
    "LfInComment",
    "EmptyPattern",
    "EmptyText",
    "BraceInText",
    "CrBeforeLf",
    "LfWithinText",
    "TextAfterText",
    "BlankFirstText",
    "LeadingSpace",
    "BlankEnd",
    "LineOfSpaces",
    "MarkedLine",
    "ForbiddenSelector",
    "SecondDefault",
    "TermAttribute",
    "ForbiddenCallee",
    "ForbiddenArgument",
    "RepeatedArgument",
    "MisspelledString",
    "MisspelledNumber",
    "MisspelledName",
    "EmptyComment",
    "BlankCommentLine",
    "HiddenMark",
    "CommonIndent",
    "SpacesOnBlankLine",
    "NoDefault",
];

/// The version of the library: 10,000 times its first number, 100 times its second, and its third.
#[unsafe(no_mangle)]
pub extern "C" fn ftl_version() -> u32
    ensures { result ≡ 20400 }
{
    20_400
}

/// Writes the name of the status of the number, as `TooSmall`, to the front of `out`, and the number of its bytes to
/// `needed`.
///
/// Returns 0. Where it returns 5 the name has more bytes than `out`: `needed` says how many, and `out` is as it was.
/// Otherwise `needed` is 0 and `out` as it was: 2 where no status has the number, 4 where a growth was refused.
#[unsafe(no_mangle)]
pub extern "C" fn ftl_status_name(
    alloc: Global,
    status: u32,
    out: &mut [u8],
    needed: &mut usize,
) -> u32
    ensures leaves { EndsAs result (LeavesOutput (IsStatusName status) out.old out.new needed.new) }
    ensures argument { (result ≡ 2) ↔ (status_name status ≡ None) }
{
    give(name_bytes(alloc, status), out, needed)
}

/// The bytes of the name of the status of the number.
fn name_bytes(alloc: Global, status: u32) -> Result<(Vec<u8>, Outcome), Refusal>
    ensures name { IfOk result (λ answer. IsStatusName status answer.0.items answer.1) }
    ensures argument { (result ≡ Err Refusal.Argument) ↔ (status_name status ≡ None) }
{
    let Some(name) = status_name(status) else {
        return Err(Refusal::Argument);
    };
    match String::from_str(alloc, name) {
        Ok(name) => Ok((name.into_bytes(), Outcome::Clean)),
        Err(_) => Err(Refusal::Memory),
    }
}

/// The name of the status of the number: of a rule that is broken the rule's.
fn status_name(status: u32) -> Option<&'static str>
    ensures { option_map (λ name. name.now) result ≡ status_name status }
{
    if status >= 101 {
        name_at(RULE_NAMES.as_slice(), status - 101)
    } else {
        name_at(FIRST_NAMES.as_slice(), status)
    }
}

fn name_at(names: &[&'static str], number: u32) -> Option<&'static str>
    ensures { option_map (λ name. name.now) result ≡ slice_get (map (λ name. name.now) names.now) number }
{
    match names.get(number as usize) {
        Some(name) => Some(*name),
        None => None,
    }
}
