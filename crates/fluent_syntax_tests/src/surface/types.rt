//! What each public type can do besides its calls: comparisons, copies, shown texts.

use fluent_syntax::ast::*;
use fluent_syntax::parser::{Edition, ErrorKind, ParseFault, ParserError, Slice};
use fluent_syntax::serializer::Options;
use fluent_syntax::spans::Span;
use fluent_syntax::unicode::{SinkError, TextSink};
use fluent_syntax_json::ValueFault;
use std::error::Error;
use std::fmt::{Debug, Display};

fn has_eq<T: Eq + Debug>() {}

fn has_partial_eq<T: PartialEq + Debug>() {}

fn has_copy<T: Copy + Eq + Debug>() {}

fn has_default<T: Default>() {}

fn is_error<T: Error + Display + Eq>() {}

fn is_slice<'s, T: Slice<'s>>() {}

fn is_sink<T: TextSink>() {}

#[test]
fn nodes_of_the_tree() {
    has_partial_eq::<Resource<&str>>();
    has_partial_eq::<Resource<Span>>();
    has_partial_eq::<Entry<String>>();
    has_partial_eq::<Message<&str>>();
    has_partial_eq::<Term<&str>>();
    has_partial_eq::<Pattern<String>>();
    has_partial_eq::<PatternElement<&str>>();
    has_partial_eq::<Attribute<&str>>();
    has_partial_eq::<Variant<&str>>();
    has_partial_eq::<CallArguments<&str>>();
    has_partial_eq::<NamedArgument<&str>>();
    has_partial_eq::<InlineExpression<&str>>();
    has_partial_eq::<Expression<&str>>();
    has_eq::<Identifier<&str>>();
    has_eq::<VariantKey<String>>();
    has_eq::<Comment<&str>>();
}

#[test]
fn texts_and_sinks() {
    is_slice::<&str>();
    is_slice::<String>();
    is_sink::<String>();
    has_partial_eq::<SinkError>();
}

#[test]
fn errors_and_faults() {
    is_error::<ErrorKind>();
    is_error::<ParserError>();
    has_partial_eq::<ParseFault<&str>>();
    has_partial_eq::<ParseFault<Span>>();
    has_partial_eq::<ValueFault>();
}

#[test]
fn small_values() {
    has_copy::<Options>();
    has_default::<Options>();
    has_copy::<Span>();
    has_copy::<Edition>();
}
