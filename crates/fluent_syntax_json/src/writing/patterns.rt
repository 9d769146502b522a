//! Patterns, and all that nests in them.
ghost use Rattle.std.specs.Prelude.{map, option_map, false};
ghost use Rattle.serde_json.specs.Written.{items_text};
ghost use Rattle.fluent_syntax_tree.specs.Tree.{arguments_of, elements_of, variants_of, inlines_of, nameds_of};
ghost use Rattle.fluent_syntax_tree.specs.View.{expression_view, inline_view, element_view, arguments_view, named_view};
ghost use Rattle.fluent_syntax_tree.specs.View.{pattern_view, variant_view};
ghost use Rattle.fluent_syntax_json.specs.Form.{expression_form, inline_form, inline_forms, element_form};
ghost use Rattle.fluent_syntax_json.specs.Form.{element_forms, maybe_form, arguments_form, named_form, named_forms};
ghost use Rattle.fluent_syntax_json.specs.Form.{pattern_form, variant_form, variant_forms};
ghost use Rattle.fluent_syntax_json.specs.Writing.{WritesData};
ghost use Rattle.fluent_syntax_grammar.specs.Writing.{Appends};

use super::names::{write_attribute_name, write_key, write_name};
use super::tokens::{write_bool, write_comma, write_text};
use fluent_syntax_grammar::sink::TextSink;
use fluent_syntax_grammar::text_writer::TextWriter;
use fluent_syntax_tree::ast::*;
use fluent_syntax_tree::texts::ReadTexts;

#[cycle(written)]
pub fn write_pattern<X, T: ReadTexts<X>, W: TextSink>(
    writer: &mut TextWriter<'_, T, W>,
    pattern: &Pattern<X>,
)
    ensures written { WritesData W.text W.room writer.old writer.new (pattern_form (pattern_view T.text pattern.now)) }
{
    writer.write_piece("{\"elements\":[");
    write_elements(writer, &pattern.elements);
    writer.write_piece("}");
}

/// Writes the elements, and the bracket that closes their list.
#[cycle(written)]
fn write_elements<X, T: ReadTexts<X>, W: TextSink>(
    writer: &mut TextWriter<'_, T, W>,
    elements: &[PatternElement<X>],
)
    ensures written { Appends W.text W.room writer.old writer.new
        (items_text false (element_forms (elements_of (map (element_view T.text) elements.now)))) }
{
    let mut later = false;
    for element in elements {
        write_comma(writer, later);
        write_element(writer, element);
        later = true;
    }
    writer.write_piece("]");
}

#[cycle(written)]
fn write_element<X, T: ReadTexts<X>, W: TextSink>(
    writer: &mut TextWriter<'_, T, W>,
    element: &PatternElement<X>,
)
    ensures written { WritesData W.text W.room writer.old writer.new (element_form (element_view T.text element.now)) }
{
    match element {
        PatternElement::TextElement { value } => {
            writer.write_piece("{\"type\":\"TextElement\",\"value\":");
            write_text(writer, value);
            writer.write_piece("}");
        }
        PatternElement::Placeable { expression } => {
            writer.write_piece("{\"expression\":");
            write_expression(writer, expression);
            writer.write_piece(",\"type\":\"Placeable\"}");
        }
    }
}

#[cycle(written)]
fn write_expression<X, T: ReadTexts<X>, W: TextSink>(
    writer: &mut TextWriter<'_, T, W>,
    expression: &Expression<X>,
)
    ensures written { WritesData W.text W.room writer.old writer.new
        (expression_form (expression_view T.text expression.now)) }
{
    match expression {
        Expression::Select { selector, variants } => {
            writer.write_piece("{\"selector\":");
            write_inline(writer, selector);
            writer.write_piece(",\"variants\":[");
            write_variants(writer, variants);
            writer.write_piece("}");
        }
        Expression::Inline(inline) => write_inline(writer, inline),
    }
}

/// Writes the variants, and the bracket that closes their list.
#[cycle(written)]
fn write_variants<X, T: ReadTexts<X>, W: TextSink>(
    writer: &mut TextWriter<'_, T, W>,
    variants: &[Variant<X>],
)
    ensures written { Appends W.text W.room writer.old writer.new
        (items_text false (variant_forms (variants_of (map (variant_view T.text) variants.now)))) }
{
    let mut later = false;
    for variant in variants {
        write_comma(writer, later);
        write_variant(writer, variant);
        later = true;
    }
    writer.write_piece("]");
}

#[cycle(written)]
fn write_variant<X, T: ReadTexts<X>, W: TextSink>(
    writer: &mut TextWriter<'_, T, W>,
    variant: &Variant<X>,
)
    ensures written { WritesData W.text W.room writer.old writer.new (variant_form (variant_view T.text variant.now)) }
{
    writer.write_piece("{\"default\":");
    write_bool(writer, variant.default);
    writer.write_piece(",\"key\":");
    write_key(writer, &variant.key);
    writer.write_piece(",\"type\":\"Variant\",\"value\":");
    write_pattern(writer, &variant.value);
    writer.write_piece("}");
}

#[cycle(written)]
fn write_inline<X, T: ReadTexts<X>, W: TextSink>(
    writer: &mut TextWriter<'_, T, W>,
    inline: &InlineExpression<X>,
)
    ensures written { WritesData W.text W.room writer.old writer.new (inline_form (inline_view T.text inline.now)) }
{
    match inline {
        InlineExpression::StringLiteral { value } => {
            writer.write_piece("{\"type\":\"StringLiteral\",\"value\":");
            write_text(writer, value);
            writer.write_piece("}");
        }
        InlineExpression::NumberLiteral { value } => {
            writer.write_piece("{\"type\":\"NumberLiteral\",\"value\":");
            write_text(writer, value);
            writer.write_piece("}");
        }
        InlineExpression::FunctionReference { id, arguments } => {
            writer.write_piece("{\"arguments\":");
            write_arguments(writer, arguments);
            writer.write_piece(",\"id\":");
            write_name(writer, id);
            writer.write_piece(",\"type\":\"FunctionReference\"}");
        }
        InlineExpression::MessageReference { id, attribute } => {
            writer.write_piece("{\"attribute\":");
            write_attribute_name(writer, attribute);
            writer.write_piece(",\"id\":");
            write_name(writer, id);
            writer.write_piece(",\"type\":\"MessageReference\"}");
        }
        InlineExpression::TermReference {
            id,
            attribute,
            arguments,
        } => {
            writer.write_piece("{\"arguments\":");
            write_own_arguments(writer, arguments);
            writer.write_piece(",\"attribute\":");
            write_attribute_name(writer, attribute);
            writer.write_piece(",\"id\":");
            write_name(writer, id);
            writer.write_piece(",\"type\":\"TermReference\"}");
        }
        InlineExpression::VariableReference { id } => {
            writer.write_piece("{\"id\":");
            write_name(writer, id);
            writer.write_piece(",\"type\":\"VariableReference\"}");
        }
        InlineExpression::Placeable { expression } => {
            writer.write_piece("{\"expression\":");
            write_expression(writer, expression);
            writer.write_piece(",\"type\":\"Placeable\"}");
        }
    }
}

/// Writes the arguments of a term.
#[cycle(written)]
fn write_own_arguments<X, T: ReadTexts<X>, W: TextSink>(
    writer: &mut TextWriter<'_, T, W>,
    arguments: &Option<CallArguments<X>>,
)
    ensures written { WritesData W.text W.room writer.old writer.new
        (maybe_form (arguments_of (option_map (arguments_view T.text) arguments.now))) }
{
    match arguments {
        None => writer.write_piece("null"),
        Some(arguments) => write_arguments(writer, arguments),
    }
}

#[cycle(written)]
fn write_arguments<X, T: ReadTexts<X>, W: TextSink>(
    writer: &mut TextWriter<'_, T, W>,
    arguments: &CallArguments<X>,
)
    ensures written { WritesData W.text W.room writer.old writer.new
        (arguments_form (arguments_view T.text arguments.now)) }
{
    writer.write_piece("{\"named\":[");
    write_named_arguments(writer, &arguments.named);
    writer.write_piece(",\"positional\":[");
    write_positional(writer, &arguments.positional);
    writer.write_piece(",\"type\":\"CallArguments\"}");
}

/// Writes the positional arguments, and the bracket that closes their list.
#[cycle(written)]
fn write_positional<X, T: ReadTexts<X>, W: TextSink>(
    writer: &mut TextWriter<'_, T, W>,
    inlines: &[InlineExpression<X>],
)
    ensures written { Appends W.text W.room writer.old writer.new
        (items_text false (inline_forms (inlines_of (map (inline_view T.text) inlines.now)))) }
{
    let mut later = false;
    for inline in inlines {
        write_comma(writer, later);
        write_inline(writer, inline);
        later = true;
    }
    writer.write_piece("]");
}

/// Writes the named arguments, and the bracket that closes their list.
#[cycle(written)]
fn write_named_arguments<X, T: ReadTexts<X>, W: TextSink>(
    writer: &mut TextWriter<'_, T, W>,
    nameds: &[NamedArgument<X>],
)
    ensures written { Appends W.text W.room writer.old writer.new
        (items_text false (named_forms (nameds_of (map (named_view T.text) nameds.now)))) }
{
    let mut later = false;
    for named in nameds {
        write_comma(writer, later);
        write_named(writer, named);
        later = true;
    }
    writer.write_piece("]");
}

#[cycle(written)]
fn write_named<X, T: ReadTexts<X>, W: TextSink>(
    writer: &mut TextWriter<'_, T, W>,
    argument: &NamedArgument<X>,
)
    ensures written { WritesData W.text W.room writer.old writer.new (named_form (named_view T.text argument.now)) }
{
    writer.write_piece("{\"name\":");
    write_name(writer, &argument.name);
    writer.write_piece(",\"type\":\"NamedArgument\",\"value\":");
    write_inline(writer, &argument.value);
    writer.write_piece("}");
}
