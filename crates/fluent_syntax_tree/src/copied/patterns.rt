//! Patterns, and all that nests in them.
ghost use Rattle.std.specs.Prelude.{◌≡◌, IfOk, map, option_map};
ghost use Rattle.fluent_syntax_tree.specs.Every.{expression_every, inline_every, element_every, arguments_every};
ghost use Rattle.fluent_syntax_tree.specs.Every.{named_every, pattern_every, variant_every};
ghost use Rattle.fluent_syntax_tree.specs.View.{expression_view, inline_view, element_view, arguments_view, named_view};
ghost use Rattle.fluent_syntax_tree.specs.View.{pattern_view, variant_view};

use super::names::{attribute_name, identifier, key};
use crate::ast::*;
use crate::capacity::list_for;
use crate::texts::CopyTexts;
use std::alloc::{AllocError, Global};

#[cycle(copied)]
#[tactic(auto, using(crate::proofs::Views::views))]
pub(crate) fn pattern<X, Y: Drop, C: CopyTexts<X, Y>>(
    by: &C,
    alloc: Global,
    pattern: &Pattern<X>,
) -> Result<Pattern<Y>, AllocError>
    requires each { pattern_every (C.can by.now) (pattern_view (λ x. x) pattern.now) }
    ensures { IfOk result (λ copy. pattern_view C.made copy ≡ pattern_view (C.source by.now) pattern.now) }
{
    let mut elements = list_for(alloc, &pattern.elements);
    for item in &pattern.elements {
        elements.push(element(by, alloc, item)?)?;
    }
    Ok(Pattern { elements })
}

#[cycle(copied)]
#[tactic(auto, using(crate::proofs::Views::views))]
pub(crate) fn element<X, Y: Drop, C: CopyTexts<X, Y>>(
    by: &C,
    alloc: Global,
    element: &PatternElement<X>,
) -> Result<PatternElement<Y>, AllocError>
    requires each { element_every (C.can by.now) (element_view (λ x. x) element.now) }
    ensures { IfOk result (λ copy. element_view C.made copy ≡ element_view (C.source by.now) element.now) }
{
    match element {
        PatternElement::TextElement { value } => Ok(PatternElement::TextElement {
            value: by.copy(alloc, value)?,
        }),
        PatternElement::Placeable { expression: inner } => Ok(PatternElement::Placeable {
            expression: expression(by, alloc, inner)?,
        }),
    }
}

#[cycle(copied)]
#[tactic(auto, using(crate::proofs::Views::views))]
pub(crate) fn expression<X, Y: Drop, C: CopyTexts<X, Y>>(
    by: &C,
    alloc: Global,
    expression: &Expression<X>,
) -> Result<Expression<Y>, AllocError>
    requires each { expression_every (C.can by.now) (expression_view (λ x. x) expression.now) }
    ensures { IfOk result (λ copy. expression_view C.made copy ≡ expression_view (C.source by.now) expression.now) }
{
    match expression {
        Expression::Select { selector, variants } => {
            let mut copies = list_for(alloc, variants);
            for item in variants {
                copies.push(variant(by, alloc, item)?)?;
            }
            Ok(Expression::Select {
                selector: inline(by, alloc, selector)?,
                variants: copies,
            })
        }
        Expression::Inline(inner) => Ok(Expression::Inline(inline(by, alloc, inner)?)),
    }
}

#[cycle(copied)]
#[tactic(auto, using(crate::proofs::Views::views))]
pub(crate) fn variant<X, Y: Drop, C: CopyTexts<X, Y>>(
    by: &C,
    alloc: Global,
    variant: &Variant<X>,
) -> Result<Variant<Y>, AllocError>
    requires each { variant_every (C.can by.now) (variant_view (λ x. x) variant.now) }
    ensures { IfOk result (λ copy. variant_view C.made copy ≡ variant_view (C.source by.now) variant.now) }
{
    Ok(Variant {
        key: key(by, alloc, &variant.key)?,
        value: pattern(by, alloc, &variant.value)?,
        default: variant.default,
    })
}

#[cycle(copied)]
#[tactic(auto, using(crate::proofs::Views::views))]
pub(crate) fn named_argument<X, Y: Drop, C: CopyTexts<X, Y>>(
    by: &C,
    alloc: Global,
    argument: &NamedArgument<X>,
) -> Result<NamedArgument<Y>, AllocError>
    requires each { named_every (C.can by.now) (named_view (λ x. x) argument.now) }
    ensures { IfOk result (λ copy. named_view C.made copy ≡ named_view (C.source by.now) argument.now) }
{
    Ok(NamedArgument {
        name: identifier(by, alloc, &argument.name)?,
        value: inline(by, alloc, &argument.value)?,
    })
}

#[cycle(copied)]
#[tactic(auto, using(crate::proofs::Views::views))]
pub(crate) fn arguments<X, Y: Drop, C: CopyTexts<X, Y>>(
    by: &C,
    alloc: Global,
    arguments: &CallArguments<X>,
) -> Result<CallArguments<Y>, AllocError>
    requires each { arguments_every (C.can by.now) (arguments_view (λ x. x) arguments.now) }
    ensures { IfOk result (λ copy. arguments_view C.made copy ≡ arguments_view (C.source by.now) arguments.now) }
{
    let mut positional = list_for(alloc, &arguments.positional);
    for item in &arguments.positional {
        positional.push(inline(by, alloc, item)?)?;
    }
    let mut nameds = list_for(alloc, &arguments.named);
    for item in &arguments.named {
        nameds.push(named_argument(by, alloc, item)?)?;
    }
    Ok(CallArguments {
        positional,
        named: nameds,
    })
}

#[cycle(copied)]
#[tactic(auto, using(crate::proofs::Views::views))]
pub(crate) fn inline<X, Y: Drop, C: CopyTexts<X, Y>>(
    by: &C,
    alloc: Global,
    inline: &InlineExpression<X>,
) -> Result<InlineExpression<Y>, AllocError>
    requires each { inline_every (C.can by.now) (inline_view (λ x. x) inline.now) }
    ensures { IfOk result (λ copy. inline_view C.made copy ≡ inline_view (C.source by.now) inline.now) }
{
    match inline {
        InlineExpression::StringLiteral { value } => Ok(InlineExpression::StringLiteral {
            value: by.copy(alloc, value)?,
        }),
        InlineExpression::NumberLiteral { value } => Ok(InlineExpression::NumberLiteral {
            value: by.copy(alloc, value)?,
        }),
        InlineExpression::FunctionReference {
            id,
            arguments: given,
        } => Ok(InlineExpression::FunctionReference {
            id: identifier(by, alloc, id)?,
            arguments: arguments(by, alloc, given)?,
        }),
        InlineExpression::MessageReference { id, attribute: of } => Ok(
            InlineExpression::MessageReference {
                id: identifier(by, alloc, id)?,
                attribute: attribute_name(by, alloc, of)?,
            },
        ),
        InlineExpression::TermReference {
            id,
            attribute: of,
            arguments: given,
        } => {
            let id = identifier(by, alloc, id)?;
            let of = attribute_name(by, alloc, of)?;
            match given {
                None => Ok(InlineExpression::TermReference {
                    id,
                    attribute: of,
                    arguments: None,
                }),
                Some(given) => Ok(InlineExpression::TermReference {
                    id,
                    attribute: of,
                    arguments: Some(arguments(by, alloc, given)?),
                }),
            }
        }
        InlineExpression::VariableReference { id } => Ok(InlineExpression::VariableReference {
            id: identifier(by, alloc, id)?,
        }),
        InlineExpression::Placeable { expression: inner } => Ok(InlineExpression::Placeable {
            expression: Box::new(alloc, expression(by, alloc, inner)?)?,
        }),
    }
}
