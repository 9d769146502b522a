//! A copy of each node of a tree, over lent and over owned texts.

use crate::alike::assert_holds;
use crate::made::{lent_tree_without_errors, owned_tree_without_errors};
use fluent_syntax::ast::*;
use fluent_syntax::parser::Slice;
use std::alloc::{AllocError, Global};
use std::test::Fail;

/// A text that has each node of the tree.
const TEXT: &str =
    "# c\nkey = a { -t(\"p\", n: 1) }\n    .b = d\n-t = { $x ->\n   *[one] u\n }\n\n## g\n";

/// Whether there is a copy, and it is equal to the original.
fn is_copy<T: PartialEq + Drop>(copy: Result<T, AllocError>, original: &T) -> bool {
    match copy {
        Ok(copy) => copy == *original,
        Err(_) => false,
    }
}

/// Whether the copies of a message's parts are equal to them.
fn copies_of_message<'s, S: Slice<'s>>(alloc: Global, message: &Message<S>) -> bool {
    let (Some(value), Some(comment), Some(attribute)) = (
        &message.value,
        &message.comment,
        message.attributes.first(),
    ) else {
        return false;
    };
    is_copy(message.try_clone(alloc), message)
        && is_copy(message.id.try_clone(alloc), &message.id)
        && is_copy(value.try_clone(alloc), value)
        && is_copy(comment.try_clone(alloc), comment)
        && is_copy(attribute.try_clone(alloc), attribute)
        && copies_of_elements(alloc, value)
}

/// Whether the copies of a pattern's elements are equal to them, and of what is in the last one.
fn copies_of_elements<'s, S: Slice<'s>>(alloc: Global, pattern: &Pattern<S>) -> bool {
    let mut equal = true;
    for element in &pattern.elements {
        equal &= is_copy(element.try_clone(alloc), element);
    }
    let Some(PatternElement::Placeable { expression }) = pattern.elements.last() else {
        return false;
    };
    equal && is_copy(expression.try_clone(alloc), expression) && copies_of_parts(alloc, expression)
}

/// Whether the copies are equal: of a select's last variant and its key, or of a term reference, its arguments and the
/// one that has a name.
fn copies_of_parts<'s, S: Slice<'s>>(alloc: Global, expression: &Expression<S>) -> bool {
    match expression {
        Expression::Select { variants, .. } => match variants.last() {
            Some(variant) => {
                is_copy(variant.try_clone(alloc), variant)
                    && is_copy(variant.key.try_clone(alloc), &variant.key)
            }
            None => false,
        },
        Expression::Inline(inline) => {
            is_copy(inline.try_clone(alloc), inline) && copies_of_arguments(alloc, inline)
        }
    }
}

fn copies_of_arguments<'s, S: Slice<'s>>(alloc: Global, inline: &InlineExpression<S>) -> bool {
    let InlineExpression::TermReference {
        arguments: Some(arguments),
        ..
    } = inline
    else {
        return false;
    };
    match arguments.named.first() {
        Some(named) => {
            is_copy(arguments.try_clone(alloc), arguments) && is_copy(named.try_clone(alloc), named)
        }
        None => false,
    }
}

/// Whether the copies of a tree and of each of its nodes are equal to them.
fn copies_of_tree<'s, S: Slice<'s>>(alloc: Global, tree: &Resource<S>) -> bool {
    let [Entry::Message(message), Entry::Term(term), entry] = tree.body.as_slice() else {
        return false;
    };
    is_copy(tree.try_clone(alloc), tree)
        && is_copy(entry.try_clone(alloc), entry)
        && is_copy(term.try_clone(alloc), term)
        && copies_of_message(alloc, message)
        && copies_of_elements(alloc, &term.value)
}

#[test]
fn trees_over_lent_and_owned_texts(rt: HostRuntime) -> Result<(), Fail> {
    let lent = lent_tree_without_errors(rt.alloc(), TEXT)?;
    assert_holds(rt.alloc(), "lent", copies_of_tree(rt.alloc(), &lent))?;
    let owned = owned_tree_without_errors(rt.alloc(), TEXT)?;
    assert_holds(rt.alloc(), "owned", copies_of_tree(rt.alloc(), &owned))
}
