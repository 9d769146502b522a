//! The components of a graph.
ghost use Rattle.std.specs.Prelude.{◌≡◌, ◌<◌, ◌↔◌, ℕ, IfOk, length, slice_index};
ghost use Rattle.fluent_syntax_names.specs.Certificates.{numbers_of};
ghost use Rattle.fluent_syntax_names.specs.Graph.{IsGraph, HasEdge, Reaches, SameComponents, targets_of};

use crate::graph::certificate::is_certified;
use crate::graph::search::{NodeNote, components_found};
use std::alloc::{AllocError, Global};

/// For each node the number of its component: two nodes have one number exactly where each reaches the other.
///
/// `graph` has for each node those that its edges lead to. Each node reaches itself, and where an edge leads to a node,
/// all that this reaches. So an edge lies on a cycle exactly where its two nodes have one number.
///
/// Takes memory for the nodes and edges; `AllocError` where there is none. The time is that of two walks over the
/// edges. Nothing recurs.
pub fn components(alloc: Global, graph: &[Vec<usize>]) -> Result<Vec<usize>, AllocError>
    requires { IsGraph (targets_of graph.now) }
    ensures len { IfOk result (λ numbers. length numbers.items ≡ length graph.now) }
    ensures strongly_connected { IfOk result (λ numbers. SameComponents (targets_of graph.now) numbers.items) }
    ensures cycles { IfOk result (λ numbers. (from to : ℕ) → from < length graph.now
        → HasEdge (targets_of graph.now) from to
        → (slice_index numbers.items from ≡ slice_index numbers.items to) ↔ Reaches (targets_of graph.now) to from) }
{
    let found = components_found(alloc, graph)?;
    let notes = found.notes.as_slice();
    if is_certified(graph, notes, &found.roots) {
        numbers_of(alloc, notes)
    } else {
        // what was found is always certified
        Err(AllocError)
    }
}

/// The number of each node's component.
fn numbers_of(alloc: Global, notes: &[NodeNote]) -> Result<Vec<usize>, AllocError>
    ensures { IfOk result (λ numbers. numbers.items ≡ numbers_of notes.now) }
{
    notes.iter().map(|note| note.component).collect(alloc)
}
