//! The tree and the errors of an answer, for who goes on with both.
ghost use Rattle.std.specs.Prelude.{◌≡◌, ◌≤◌, ℕ, List, length, All, Err, IfOk, OnErr};
ghost use Rattle.fluent_syntax.specs.Recovered.{HasRecovered};
ghost use Rattle.fluent_syntax_parser.specs.Answers.{ErrorsInText};
ghost use Rattle.fluent_syntax_parser.specs.declared.fault.ParseFault.TheVariants.{Memory};

use crate::parser;
use fluent_syntax_parser::fault::ParseFault;
use fluent_syntax_tree::ast::Resource;
use fluent_syntax_tree::errors::ParserError;
use std::alloc::{AllocError, Global};

/// The tree of what parsing answered, and its errors; none where it answered `Ok`.
///
/// - `recovered`: so they are.
/// - `places`: the place of each error begins within the text, if that holds of the answer, as it does of what `parse`
///   and its kin answer. So `line_column` takes it.
/// - `memory`: the answer was want of memory, where this one is. No memory is taken.
pub fn recovered<S>(
    alloc: Global,
    answer: parser::Result<S>,
) -> Result<(Resource<S>, Vec<ParserError>), AllocError>
    ensures recovered { IfOk result (λ found. HasRecovered answer found.0 found.1.items) }
    ensures places { (t : List ℕ) → ErrorsInText t answer
        → IfOk result (λ found. All (λ error. error.pos.start ≤ length t) found.1.items) }
    ensures memory { OnErr result (answer ≡ Err Memory) }
{
    match answer {
        Ok(tree) => Ok((tree, Vec::new(alloc))),
        Err(ParseFault::Syntax(tree, errors)) => Ok((tree, errors)),
        Err(ParseFault::Memory) => Err(AllocError),
    }
}
