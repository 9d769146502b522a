//! What shows that the components of a graph were found: see `IsCertified`.
ghost use Rattle.std.specs.Prelude.{◌≡◌, ◌<◌, ◌≤◌, ℕ, IfSome, length, true};
ghost use Rattle.fluent_syntax_names.specs.Graph.{edges, target, targets_of};
ghost use Rattle.fluent_syntax_names.specs.Certificates.{IsCertified, IsCertifiedAt, IsMet, IsPut, Rises};
ghost use Rattle.fluent_syntax_names.specs.Certificates.{note_of};

use crate::graph::search::{Edge, NodeNote};

/// Whether the notes show which nodes reach one another.
pub(crate) fn is_certified(graph: &[Vec<usize>], notes: &[NodeNote], roots: &[usize]) -> bool
    ensures { result ≡ true → IsCertified (targets_of graph.now) notes.now roots.now }
{
    if notes.len() != graph.len() {
        return false;
    }
    for node in 0..graph.len() {
        if !is_certified_at(graph, notes, roots, node) {
            return false;
        }
    }
    true
}

fn is_certified_at(graph: &[Vec<usize>], notes: &[NodeNote], roots: &[usize], node: usize) -> bool
    ensures { result ≡ true → IsCertifiedAt (targets_of graph.now) notes.now roots.now node }
{
    let Some(note) = notes.get(node) else {
        return false;
    };
    let Some(root) = roots.get(note.component) else {
        return false;
    };
    rises(graph, notes, node)
        && (node == *root || is_met(graph, notes, node) && is_put(graph, notes, node))
}

/// Whether no edge of the node leads to a lower component.
fn rises(graph: &[Vec<usize>], notes: &[NodeNote], node: usize) -> bool
    ensures { result ≡ true → Rises (targets_of graph.now) notes.now node }
{
    let component = note_of(notes, node).component;
    let Some(targets) = graph.get(node) else {
        return true;
    };
    for target in targets {
        if note_of(notes, *target).component < component {
            return false;
        }
    }
    true
}

/// Whether an edge leads to the node from one of its component that was met before it.
fn is_met(graph: &[Vec<usize>], notes: &[NodeNote], node: usize) -> bool
    ensures { result ≡ true → IsMet (targets_of graph.now) notes.now node }
{
    let note = note_of(notes, node);
    let before = note_of(notes, note.met_by.from);
    target_of(graph, note.met_by) == Some(node)
        && before.met < note.met
        && before.component == note.component
}

/// Whether an edge of the node leads to one of its component that was put there before it.
fn is_put(graph: &[Vec<usize>], notes: &[NodeNote], node: usize) -> bool
    ensures { result ≡ true → IsPut (targets_of graph.now) notes.now node }
{
    let note = note_of(notes, node);
    let edge = Edge {
        from: node,
        place: note.onward,
    };
    let Some(target) = target_of(graph, edge) else {
        return false;
    };
    let before = note_of(notes, target);
    before.put < note.put && before.component == note.component
}

/// The node that the edge leads to, if the graph has such an edge.
pub(crate) fn target_of(graph: &[Vec<usize>], edge: Edge) -> Option<usize>
    ensures { IfSome result (λ found. (edge.place < length (edges (targets_of graph.now) edge.from))
        × (target (targets_of graph.now) edge.from edge.place ≡ found)) }
{
    graph.get(edge.from)?.get(edge.place).copied()
}

/// The node's note; that of no node is an empty one.
fn note_of(notes: &[NodeNote], node: usize) -> NodeNote
    ensures { result ≡ note_of notes.now node }
{
    match notes.get(node) {
        Some(note) => *note,
        None => NodeNote::default(),
    }
}
