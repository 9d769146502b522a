//! The nodes of a tree as rows.
ghost use Rattle.std.specs.Prelude.{◌≡◌, ◌<◌, ◌≤◌, [], length, map, option_map, IfOk, OnOk};
ghost use Rattle.std.specs.Str.{IsUtf8};
ghost use Rattle.fluent_syntax_tree.specs.View.{attribute_view, comment_view, entry_view, message_view, pattern_view};
ghost use Rattle.fluent_syntax_tree.specs.View.{resource_view, term_view};
ghost use Rattle.fluent_syntax_names.specs.Growing.{Adds};
ghost use Rattle.fluent_syntax_c.specs.Depth.{EditionReadsDeeper};
ghost use Rattle.fluent_syntax_c.specs.Nodes.{are_nodes, attribute_nodes, attributes_nodes, body_nodes};
ghost use Rattle.fluent_syntax_c.specs.Nodes.{comment_nodes, entry_nodes, line_nodes, lines_nodes, message_nodes};
ghost use Rattle.fluent_syntax_c.specs.Nodes.{no_text, node_number, node_row, option_count, own_comment_nodes};
ghost use Rattle.fluent_syntax_c.specs.Nodes.{term_nodes, value_nodes};
ghost use Rattle.fluent_syntax_c.specs.Rows.{AreRows, Gives};

use crate::pattern_nodes::add_pattern;
use crate::readings::Reading;
use crate::rows::{TextRows, give_rows};
use fluent_syntax::ast::*;
use fluent_syntax::spans::Span;
use std::alloc::{AllocError, Global};

/// A node of a tree: `struct ftl_node` of `include/fluent.h`.
#[repr(C)]
#[derive(Clone, Copy)]
pub struct FtlNode {
    /// The bytes of the input that spell its name, or its text. Of a node with neither both are 0.
    pub start: usize,
    pub end: usize,
    /// How many nodes it holds. Their rows, each with those of what it holds, come directly after its own.
    pub held: usize,
    /// What it is.
    pub kind: u32,
}

/// What a node is: `enum ftl_node_kind` of `include/fluent.h`.
#[derive(Clone, Copy)]
pub enum NodeKind {
    Message,
    Term,
    Comment,
    GroupComment,
    ResourceComment,
    Junk,
    /// The comment of the message or the term that comes after it.
    OwnComment,
    CommentLine,
    Attribute,
    Pattern,
    Text,
    Placeable,
    Select,
    Variant,
    DefaultVariant,
    Identifier,
    StringLiteral,
    NumberLiteral,
    MessageReference,
    TermReference,
    VariableReference,
    FunctionReference,
    CallArguments,
    NamedArgument,
}

impl NodeKind {
    fn number(self) -> u32
        ensures { result ≡ node_number self }
    {
        match self {
            NodeKind::Message => 1,
            NodeKind::Term => 2,
            NodeKind::Comment => 3,
            NodeKind::GroupComment => 4,
            NodeKind::ResourceComment => 5,
            NodeKind::Junk => 6,
            NodeKind::OwnComment => 7,
            NodeKind::CommentLine => 8,
            NodeKind::Attribute => 9,
            NodeKind::Pattern => 10,
            NodeKind::Text => 11,
            NodeKind::Placeable => 12,
            NodeKind::Select => 13,
            NodeKind::Variant => 14,
            NodeKind::DefaultVariant => 15,
            NodeKind::Identifier => 16,
            NodeKind::StringLiteral => 17,
            NodeKind::NumberLiteral => 18,
            NodeKind::MessageReference => 19,
            NodeKind::TermReference => 20,
            NodeKind::VariableReference => 21,
            NodeKind::FunctionReference => 22,
            NodeKind::CallArguments => 23,
            NodeKind::NamedArgument => 24,
        }
    }
}

/// The row of a node with that name or text, which holds so many.
pub(crate) fn node(kind: NodeKind, text: Span, held: usize) -> FtlNode
    ensures { result ≡ node_row kind text held }
{
    FtlNode {
        start: text.start,
        end: text.end,
        held,
        kind: kind.number(),
    }
}

/// The row of a node without a name or a text of its own.
pub(crate) fn bare_node(kind: NodeKind, held: usize) -> FtlNode
    ensures { result ≡ node_row kind no_text held }
{
    node(kind, Span { start: 0, end: 0 }, held)
}

/// Writes the nodes of the tree of the input, read by the edition of the number, to the front of `rows`, and their
/// number to `count`. The entries come in order, and each node before those that it holds.
///
/// Returns 0, or 1 where the input has syntax errors. Where it returns 5 there are more than `rows` has room for:
/// `count` says how many, and `rows` is as it was. Otherwise `count` is 0 and `rows` as it was: 2 where no edition has
/// the number, 3 where the input is not UTF-8, 4 where a growth was refused, 6 where the input's placeables and
/// argument lists nest more than `nesting` deep.
#[unsafe(no_mangle)]
pub extern "C" fn ftl_nodes(
    alloc: Global,
    edition: u32,
    nesting: usize,
    input: &[u8],
    rows: &mut [FtlNode],
    count: &mut usize,
) -> u32
    ensures gives { Gives edition (AreRows are_nodes edition input.now) (IsUtf8 input.now)
        (nesting < length input.now) (EditionReadsDeeper edition input.now nesting)
        rows.old rows.new count.new result }
{
    give_rows::<Nodes>(alloc, edition, nesting, input, rows, count)
}

/// The nodes of the tree of a text.
struct Nodes;

impl TextRows for Nodes {
    type Row = FtlNode;

    ghost are = { are_nodes };

    fn rows_of(
        alloc: Global,
        _nesting: usize,
        reading: &Reading<'_>,
    ) -> Result<Vec<FtlNode>, AllocError> {
        node_rows(alloc, &reading.tree)
    }
}

/// The rows of the nodes of a tree.
fn node_rows(alloc: Global, tree: &Resource<Span>) -> Result<Vec<FtlNode>, AllocError>
    ensures { IfOk result (λ rows. rows.items ≡ body_nodes (resource_view (λ s. s) tree.now) []) }
{
    let mut rows = Vec::new(alloc);
    add_entries(&mut rows, &tree.body)?;
    Ok(rows)
}

fn add_entries(rows: &mut Vec<FtlNode>, entries: &[Entry<Span>]) -> Result<(), AllocError>
    ensures { OnOk result (Adds rows.old.items rows.new.items (body_nodes (map (entry_view (λ s. s)) entries.now))) }
{
    for entry in entries {
        add_entry(rows, entry)?;
    }
    Ok(())
}

fn add_entry(rows: &mut Vec<FtlNode>, entry: &Entry<Span>) -> Result<(), AllocError>
    ensures { OnOk result (Adds rows.old.items rows.new.items (entry_nodes (entry_view (λ s. s) entry.now))) }
{
    match entry {
        Entry::Message(message) => add_message(rows, message),
        Entry::Term(term) => add_term(rows, term),
        Entry::Comment(comment) => add_comment(rows, NodeKind::Comment, comment),
        Entry::GroupComment(comment) => add_comment(rows, NodeKind::GroupComment, comment),
        Entry::ResourceComment(comment) => add_comment(rows, NodeKind::ResourceComment, comment),
        Entry::Junk { content } => {
            rows.push(node(NodeKind::Junk, *content, 0))?;
            Ok(())
        }
    }
}

fn add_message(rows: &mut Vec<FtlNode>, message: &Message<Span>) -> Result<(), AllocError>
    ensures { OnOk result (Adds rows.old.items rows.new.items (message_nodes (message_view (λ s. s) message.now))) }
{
    add_own_comment(rows, &message.comment)?;
    let held = value_count(&message.value) + message.attributes.len();
    rows.push(node(NodeKind::Message, message.id.name, held))?;
    add_value(rows, &message.value)?;
    add_attributes(rows, &message.attributes)
}

fn add_term(rows: &mut Vec<FtlNode>, term: &Term<Span>) -> Result<(), AllocError>
    ensures { OnOk result (Adds rows.old.items rows.new.items (term_nodes (term_view (λ s. s) term.now))) }
{
    add_own_comment(rows, &term.comment)?;
    rows.push(node(NodeKind::Term, term.id.name, 1 + term.attributes.len()))?;
    add_pattern(rows, &term.value)?;
    add_attributes(rows, &term.attributes)
}

/// How many values a message has: one or none.
fn value_count(value: &Option<Pattern<Span>>) -> usize
    ensures count { result ≡ option_count (option_map (pattern_view (λ s. s)) value.now) }
    ensures small { result ≤ 1 }
{
    match value {
        Some(_) => 1,
        None => 0,
    }
}

/// Adds the value of a message, if it has one.
fn add_value(rows: &mut Vec<FtlNode>, value: &Option<Pattern<Span>>) -> Result<(), AllocError>
    ensures { OnOk result (Adds rows.old.items rows.new.items
        (value_nodes (option_map (pattern_view (λ s. s)) value.now))) }
{
    match value {
        Some(value) => add_pattern(rows, value),
        None => Ok(()),
    }
}

fn add_attributes(rows: &mut Vec<FtlNode>, attributes: &[Attribute<Span>]) -> Result<(), AllocError>
    ensures { OnOk result (Adds rows.old.items rows.new.items
        (attributes_nodes (map (attribute_view (λ s. s)) attributes.now))) }
{
    for attribute in attributes {
        add_attribute(rows, attribute)?;
    }
    Ok(())
}

fn add_attribute(rows: &mut Vec<FtlNode>, attribute: &Attribute<Span>) -> Result<(), AllocError>
    ensures { OnOk result (Adds rows.old.items rows.new.items
        (attribute_nodes (attribute_view (λ s. s) attribute.now))) }
{
    rows.push(node(NodeKind::Attribute, attribute.id.name, 1))?;
    add_pattern(rows, &attribute.value)
}

/// Adds the comment of a message or a term, if it has one.
fn add_own_comment(
    rows: &mut Vec<FtlNode>,
    comment: &Option<Comment<Span>>,
) -> Result<(), AllocError>
    ensures { OnOk result (Adds rows.old.items rows.new.items
        (own_comment_nodes (option_map (comment_view (λ s. s)) comment.now))) }
{
    match comment {
        Some(comment) => add_comment(rows, NodeKind::OwnComment, comment),
        None => Ok(()),
    }
}

fn add_comment(
    rows: &mut Vec<FtlNode>,
    kind: NodeKind,
    comment: &Comment<Span>,
) -> Result<(), AllocError>
    ensures { OnOk result (Adds rows.old.items rows.new.items
        (comment_nodes kind (comment_view (λ s. s) comment.now))) }
{
    rows.push(bare_node(kind, comment.content.len()))?;
    add_lines(rows, &comment.content)
}

fn add_lines(rows: &mut Vec<FtlNode>, lines: &[Span]) -> Result<(), AllocError>
    ensures { OnOk result (Adds rows.old.items rows.new.items (lines_nodes (map (λ s. s) lines.now))) }
{
    for line in lines {
        add_line(rows, line)?;
    }
    Ok(())
}

fn add_line(rows: &mut Vec<FtlNode>, line: &Span) -> Result<(), AllocError>
    ensures { OnOk result (Adds rows.old.items rows.new.items (line_nodes line.now)) }
{
    rows.push(node(NodeKind::CommentLine, *line, 0))?;
    Ok(())
}
