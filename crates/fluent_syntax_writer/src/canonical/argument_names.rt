//! Whether named arguments have distinct names.
ghost use Rattle.std.specs.Prelude.{◌≡◌, map, [], IfOk};
ghost use Rattle.fluent_syntax_tree.specs.Tree.{nameds_of};
ghost use Rattle.fluent_syntax_tree.specs.View.{named_view};
ghost use Rattle.fluent_syntax_grammar.specs.Arguments.{is_used};
ghost use Rattle.fluent_syntax_writer.specs.SingleRule.{have_new_names};
ghost use Rattle.fluent_syntax_writer.specs.Names.{name_of};

use fluent_syntax_tree::ast::NamedArgument;
use fluent_syntax_tree::texts::ReadTexts;
use std::alloc::{AllocError, Global};
use std::collections::BTreeSet;

/// From so many arguments on their names are looked up in a table. Fewer are compared one by one.
const TABLE_THRESHOLD: usize = 32;

/// Whether the names are distinct. Those of many arguments are looked up in a table, if there is memory for it.
pub fn have_new_names<X, T: ReadTexts<X>>(alloc: Option<Global>, named: &[NamedArgument<X>]) -> bool
    ensures { result ≡ have_new_names [] (nameds_of (map (named_view T.text) named.now)) }
{
    if named.len() >= TABLE_THRESHOLD {
        if let Some(alloc) = alloc {
            if let Ok(answer) = have_new_names_by_table::<X, T>(alloc, named) {
                return answer;
            }
        }
    }
    have_new_names_by_pairs::<X, T>(named)
}

fn have_new_names_by_table<X, T: ReadTexts<X>>(
    alloc: Global,
    named: &[NamedArgument<X>],
) -> Result<bool, AllocError>
    ensures { IfOk result
        (λ answer. answer ≡ have_new_names [] (nameds_of (map (named_view T.text) named.now))) }
{
    let mut table: BTreeSet<&[u8], Global> = BTreeSet::new(alloc);
    for argument in named {
        if !table.insert(T::as_str(&argument.name.name).as_bytes())? {
            return Ok(false);
        }
    }
    Ok(true)
}

fn have_new_names_by_pairs<X, T: ReadTexts<X>>(named: &[NamedArgument<X>]) -> bool
    ensures { result ≡ have_new_names [] (nameds_of (map (named_view T.text) named.now)) }
{
    for (index, argument) in named.iter().enumerate() {
        if is_used::<X, T>(T::as_str(&argument.name.name), &named[..index]) {
            return false;
        }
    }
    true
}

/// Whether an argument has the name.
fn is_used<X, T: ReadTexts<X>>(name: &str, named: &[NamedArgument<X>]) -> bool
    ensures { result ≡ is_used name.now (map (name_of T.text) named.now) }
{
    named
        .iter()
        .any(|argument| name == T::as_str(&argument.name.name))
}
