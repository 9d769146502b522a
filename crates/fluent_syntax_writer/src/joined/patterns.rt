//! Patterns, and all that nests in them.
ghost use Rattle.std.specs.Prelude.{◌≡◌, ◌++◌, IfOk, OnOk, List, map, option_map, string_bytes};
ghost use Rattle.std.specs.Option.{option_to_list};
ghost use Rattle.fluent_syntax_tree.specs.Tree.{PatternTree, elements, text_element};
ghost use Rattle.fluent_syntax_tree.specs.View.{expression_view, inline_view, element_view, arguments_view};
ghost use Rattle.fluent_syntax_tree.specs.View.{named_view, pattern_view, variant_view};
ghost use Rattle.fluent_syntax_grammar.specs.Joined.{is_joined, joined_expression, joined_inline, joined_arguments};
ghost use Rattle.fluent_syntax_grammar.specs.Joined.{joined_named, joined_pattern, joined_variant};
ghost use Rattle.fluent_syntax_grammar.specs.Written.{Text};
ghost use Rattle.fluent_syntax_writer.specs.Joining.{before_pattern, joined_from};

use crate::joined::texts::{attribute_name, identifier, key, string};
use fluent_syntax_grammar::texts::{ends_in_lf, is_lone_lf};
use fluent_syntax_tree::ast::*;
use fluent_syntax_tree::capacity::list_for;
use fluent_syntax_tree::texts::ReadTexts;
use std::alloc::{AllocError, Global};

/// Whether a text is joined to the text directly before it.
fn is_joined(before: &str, after: &str) -> bool
    ensures { result ≡ is_joined before.now after.now }
{
    is_lone_lf(after) && !ends_in_lf(before)
}

/// Appends the last text, where there is one.
fn push_last(
    elements: &mut Vec<PatternElement<String>>,
    last: Option<String>,
) -> Result<(), AllocError>
    ensures { OnOk result (map (element_view string_bytes) elements.new.items
        ≡ map (element_view string_bytes) elements.old.items
        ++ map text_element (option_to_list (option_map string_bytes last))) }
{
    if let Some(value) = last {
        elements.push(PatternElement::TextElement { value })?;
    }
    Ok(())
}

/// Appends the last text, joined to the text after it or else alone: then that is answered as the new last text.
fn push_text(
    made: &mut Vec<PatternElement<String>>,
    last: Option<String>,
    text: String,
) -> Result<Option<String>, AllocError>
    ensures { IfOk result (λ next. (rest : PatternTree Text) →
        before_pattern (map (element_view string_bytes) made.new.items)
        (joined_from (option_map string_bytes next) rest)
        ≡ before_pattern (map (element_view string_bytes) made.old.items)
        (joined_from (option_map string_bytes last) (elements (text_element (string_bytes text)) rest))) }
{
    let Some(mut before) = last else {
        return Ok(Some(text));
    };
    if is_joined(&before, &text) {
        before.push_str(&text)?;
        made.push(PatternElement::TextElement { value: before })?;
        return Ok(None);
    }
    made.push(PatternElement::TextElement { value: before })?;
    Ok(Some(text))
}

#[cycle(joined)]
#[tactic(auto, using(fluent_syntax_tree::proofs::Views::views))]
pub fn pattern<X, T: ReadTexts<X>>(
    alloc: Global,
    pattern: &Pattern<X>,
) -> Result<Pattern<String>, AllocError>
    ensures { IfOk result (λ copy. pattern_view string_bytes copy ≡ joined_pattern (pattern_view T.text pattern.now)) }
{
    let mut elements = list_for(alloc, &pattern.elements);
    let mut last = None;
    for item in &pattern.elements {
        last = push_element::<X, T>(alloc, item, &mut elements, last)?;
    }
    push_last(&mut elements, last)?;
    Ok(Pattern { elements })
}

/// Appends the last text and the element, joined or apart, but for what may be joined to the text after it: that is
/// answered as the new last text.
#[cycle(joined)]
#[tactic(auto, using(fluent_syntax_tree::proofs::Views::views))]
fn push_element<X, T: ReadTexts<X>>(
    alloc: Global,
    element: &PatternElement<X>,
    made: &mut Vec<PatternElement<String>>,
    last: Option<String>,
) -> Result<Option<String>, AllocError>
    ensures { IfOk result (λ next. (rest : PatternTree Text) →
        before_pattern (map (element_view string_bytes) made.new.items)
        (joined_from (option_map string_bytes next) rest)
        ≡ before_pattern (map (element_view string_bytes) made.old.items)
        (joined_from (option_map string_bytes last) (elements (element_view T.text element.now) rest))) }
{
    match element {
        PatternElement::TextElement { value } => {
            push_text(made, last, string::<X, T>(alloc, value)?)
        }
        PatternElement::Placeable { expression: inner } => {
            push_last(made, last)?;
            made.push(PatternElement::Placeable {
                expression: expression::<X, T>(alloc, inner)?,
            })?;
            Ok(None)
        }
    }
}

#[cycle(joined)]
#[tactic(auto, using(fluent_syntax_tree::proofs::Views::views))]
pub fn expression<X, T: ReadTexts<X>>(
    alloc: Global,
    expression: &Expression<X>,
) -> Result<Expression<String>, AllocError>
    ensures { IfOk result (λ copy. expression_view string_bytes copy
        ≡ joined_expression (expression_view T.text expression.now)) }
{
    match expression {
        Expression::Select { selector, variants } => {
            let mut copies = list_for(alloc, variants);
            for item in variants {
                copies.push(variant::<X, T>(alloc, item)?)?;
            }
            Ok(Expression::Select {
                selector: inline::<X, T>(alloc, selector)?,
                variants: copies,
            })
        }
        Expression::Inline(inner) => Ok(Expression::Inline(inline::<X, T>(alloc, inner)?)),
    }
}

#[cycle(joined)]
#[tactic(auto, using(fluent_syntax_tree::proofs::Views::views))]
fn variant<X, T: ReadTexts<X>>(
    alloc: Global,
    variant: &Variant<X>,
) -> Result<Variant<String>, AllocError>
    ensures { IfOk result (λ copy. variant_view string_bytes copy ≡ joined_variant (variant_view T.text variant.now)) }
{
    Ok(Variant {
        key: key::<X, T>(alloc, &variant.key)?,
        value: pattern::<X, T>(alloc, &variant.value)?,
        default: variant.default,
    })
}

#[cycle(joined)]
#[tactic(auto, using(fluent_syntax_tree::proofs::Views::views))]
fn named_argument<X, T: ReadTexts<X>>(
    alloc: Global,
    argument: &NamedArgument<X>,
) -> Result<NamedArgument<String>, AllocError>
    ensures { IfOk result (λ copy. named_view string_bytes copy ≡ joined_named (named_view T.text argument.now)) }
{
    Ok(NamedArgument {
        name: identifier::<X, T>(alloc, &argument.name)?,
        value: inline::<X, T>(alloc, &argument.value)?,
    })
}

#[cycle(joined)]
#[tactic(auto, using(fluent_syntax_tree::proofs::Views::views))]
fn arguments<X, T: ReadTexts<X>>(
    alloc: Global,
    arguments: &CallArguments<X>,
) -> Result<CallArguments<String>, AllocError>
    ensures { IfOk result (λ copy. arguments_view string_bytes copy
        ≡ joined_arguments (arguments_view T.text arguments.now)) }
{
    let mut positional = list_for(alloc, &arguments.positional);
    for item in &arguments.positional {
        positional.push(inline::<X, T>(alloc, item)?)?;
    }
    let mut nameds = list_for(alloc, &arguments.named);
    for item in &arguments.named {
        nameds.push(named_argument::<X, T>(alloc, item)?)?;
    }
    Ok(CallArguments {
        positional,
        named: nameds,
    })
}

#[cycle(joined)]
#[tactic(auto, using(fluent_syntax_tree::proofs::Views::views))]
fn inline<X, T: ReadTexts<X>>(
    alloc: Global,
    inline: &InlineExpression<X>,
) -> Result<InlineExpression<String>, AllocError>
    ensures { IfOk result (λ copy. inline_view string_bytes copy ≡ joined_inline (inline_view T.text inline.now)) }
{
    match inline {
        InlineExpression::StringLiteral { value } => Ok(InlineExpression::StringLiteral {
            value: string::<X, T>(alloc, value)?,
        }),
        InlineExpression::NumberLiteral { value } => Ok(InlineExpression::NumberLiteral {
            value: string::<X, T>(alloc, value)?,
        }),
        InlineExpression::FunctionReference {
            id,
            arguments: given,
        } => Ok(InlineExpression::FunctionReference {
            id: identifier::<X, T>(alloc, id)?,
            arguments: arguments::<X, T>(alloc, given)?,
        }),
        InlineExpression::MessageReference { id, attribute: of } => Ok(
            InlineExpression::MessageReference {
                id: identifier::<X, T>(alloc, id)?,
                attribute: attribute_name::<X, T>(alloc, of)?,
            },
        ),
        InlineExpression::TermReference {
            id,
            attribute: of,
            arguments: given,
        } => {
            let id = identifier::<X, T>(alloc, id)?;
            let of = attribute_name::<X, T>(alloc, of)?;
            match given {
                None => Ok(InlineExpression::TermReference {
                    id,
                    attribute: of,
                    arguments: None,
                }),
                Some(given) => Ok(InlineExpression::TermReference {
                    id,
                    attribute: of,
                    arguments: Some(arguments::<X, T>(alloc, given)?),
                }),
            }
        }
        InlineExpression::VariableReference { id } => Ok(InlineExpression::VariableReference {
            id: identifier::<X, T>(alloc, id)?,
        }),
        InlineExpression::Placeable { expression: inner } => Ok(InlineExpression::Placeable {
            expression: Box::new(alloc, expression::<X, T>(alloc, inner)?)?,
        }),
    }
}
