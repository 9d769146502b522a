//! A tree built by hand: checked that it reads back once it is written, and written onto a sink of its own.

use crate::counted::Counted;
use fluent_syntax::ast::{
    Entry, Expression, Identifier, InlineExpression, Message, Pattern, PatternElement, Resource,
    Variant, VariantKey,
};
use fluent_syntax::laws::is_canonical;
use fluent_syntax::parser::Edition;
use fluent_syntax::serializer::{Options, serialize_to};
use std::alloc::{AllocError, Global};

pub(crate) fn build<R: Print + AllocGlobal>(rt: &R) -> anyhow::Result<()> {
    let tree = files(rt.alloc())?;
    if !is_canonical(&tree, Edition::One) {
        anyhow::bail!("the tree would not read back");
    }
    let mut sink = Counted::new(rt.alloc());
    if serialize_to(&mut sink, &tree, Options::default()).is_err() {
        anyhow::bail!("no memory");
    }
    print!(rt; "{}", sink.text)?;
    println!(rt; "({} lines)", sink.lines)?;
    Ok(())
}

/// One message: how many files there are.
fn files(alloc: Global) -> Result<Resource<&'static str>, AllocError> {
    let count = InlineExpression::VariableReference {
        id: Identifier { name: "count" },
    };
    let one = variant(alloc, "one", "One file", false)?;
    let other = variant(alloc, "other", "Files", true)?;
    let select = Expression::Select {
        selector: count,
        variants: vec![in alloc; one, other]?,
    };
    let message = Message {
        id: Identifier { name: "files" },
        value: Some(Pattern {
            elements: vec![in alloc; PatternElement::Placeable { expression: select }]?,
        }),
        attributes: Vec::new(alloc),
        comment: None,
    };
    Ok(Resource {
        body: vec![in alloc; Entry::Message(message)]?,
    })
}

/// A variant whose value is one text.
fn variant(
    alloc: Global,
    name: &'static str,
    text: &'static str,
    default: bool,
) -> Result<Variant<&'static str>, AllocError> {
    Ok(Variant {
        key: VariantKey::Identifier { name },
        value: Pattern {
            elements: vec![in alloc; PatternElement::TextElement { value: text }]?,
        },
        default,
    })
}
