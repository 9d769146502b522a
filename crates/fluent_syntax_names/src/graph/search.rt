//! A search for the components of a graph: nodes that reach one another are in one component.
//!
//! A walk along the edges finishes each node after all that it was the first to meet. Backwards from the nodes that it
//! finished last, edges lead to the rest of their components. No clause rests on this: what was found is looked at
//! (`is_certified`).

use crate::graph::certificate::target_of;
use std::alloc::{AllocError, Global};

/// An edge: the node that it leads from, and its place among the edges of that node.
#[derive(Clone, Copy, Default)]
pub(crate) struct Edge {
    pub(crate) from: usize,
    pub(crate) place: usize,
}

/// What was found of a node.
#[derive(Clone, Copy, Default)]
pub(crate) struct NodeNote {
    /// The number of its component. No edge leads to a lower one.
    pub(crate) component: usize,
    /// The edge along which the walk met it, from a node that it had met before; and as which node it was met, from 1.
    pub(crate) met_by: Edge,
    pub(crate) met: usize,
    /// The place of its edge to a node that was put in the component before it; and as which node it was, from 1.
    pub(crate) onward: usize,
    pub(crate) put: usize,
}

/// What was found of a graph.
#[derive(Drop)]
pub(crate) struct Components {
    pub(crate) notes: Vec<NodeNote>,
    /// Of each component the node that the walk met first.
    pub(crate) roots: Vec<usize>,
}

/// Finds the components. The time goes with the nodes and edges.
pub(crate) fn components_found(
    alloc: Global,
    graph: &[Vec<usize>],
) -> Result<Components, AllocError> {
    let mut walk = Walk {
        notes: vec![in alloc; NodeNote::default(); graph.len()]?,
        open: Vec::new(alloc),
        met: 0,
        finished: Vec::new(alloc),
    };
    walk.go(graph)?;
    let Walk {
        notes,
        finished,
        ..
    } = walk;
    let mut gathering = Gathering {
        notes,
        open: Vec::new(alloc),
        put: 0,
        roots: Vec::new(alloc),
    };
    gathering.go(&edges_to(alloc, graph)?, &finished)?;
    let Gathering { notes, roots, .. } = gathering;
    Ok(Components { notes, roots })
}

/// A walk along the edges.
#[derive(Drop)]
struct Walk {
    notes: Vec<NodeNote>,
    /// The next edge of each node that is not finished.
    open: Vec<Edge>,
    met: usize,
    finished: Vec<usize>,
}

impl Walk {
    fn go(&mut self, graph: &[Vec<usize>]) -> Result<(), AllocError> {
        let mut steps = graph.len();
        for targets in graph {
            steps = steps.saturating_add(targets.len());
        }
        for node in 0..graph.len() {
            self.meet(node, Edge::default())?;
            for _ in 0..steps {
                let Some(edge) = self.open.pop() else {
                    break;
                };
                self.step(graph, edge)?;
            }
        }
        Ok(())
    }

    /// Goes along the edge; its node is finished where there is none.
    fn step(&mut self, graph: &[Vec<usize>], edge: Edge) -> Result<(), AllocError> {
        let Some(target) = target_of(graph, edge) else {
            self.finished.push(edge.from)?;
            return Ok(());
        };
        self.open.push(Edge {
            from: edge.from,
            place: edge.place.saturating_add(1),
        })?;
        self.meet(target, edge)
    }

    /// Opens the node, if it was not met before.
    fn meet(&mut self, node: usize, met_by: Edge) -> Result<(), AllocError> {
        let met = self.met.saturating_add(1);
        match self.notes.get_mut(node) {
            Some(note) if note.met == 0 => {
                note.met = met;
                note.met_by = met_by;
            }
            _ => return Ok(()),
        }
        self.met = met;
        self.open.push(Edge {
            from: node,
            place: 0,
        })?;
        Ok(())
    }
}

/// The components, as nodes are put in them.
#[derive(Drop)]
struct Gathering {
    notes: Vec<NodeNote>,
    /// Nodes whose edges were not followed backwards.
    open: Vec<usize>,
    put: usize,
    roots: Vec<usize>,
}

impl Gathering {
    fn go(&mut self, edges_to: &[Vec<Edge>], finished: &[usize]) -> Result<(), AllocError> {
        for root in finished.iter().rev() {
            let component = self.roots.len();
            if self.put(*root, component, 0) {
                self.roots.push(*root)?;
                self.open.push(*root)?;
            }
            for _ in 0..finished.len() {
                let Some(node) = self.open.pop() else {
                    break;
                };
                if let Some(edges) = edges_to.get(node) {
                    self.follow(edges, component)?;
                }
            }
        }
        Ok(())
    }

    /// Follows the edges backwards.
    fn follow(&mut self, edges: &[Edge], component: usize) -> Result<(), AllocError> {
        for edge in edges {
            if self.put(edge.from, component, edge.place) {
                self.open.push(edge.from)?;
            }
        }
        Ok(())
    }

    /// Puts the node in the component, unless it is in one.
    fn put(&mut self, node: usize, component: usize, onward: usize) -> bool {
        let put = self.put.saturating_add(1);
        match self.notes.get_mut(node) {
            Some(note) if note.put == 0 => {
                note.component = component;
                note.onward = onward;
                note.put = put;
            }
            _ => return false,
        }
        self.put = put;
        true
    }
}

/// For each node the edges that lead to it.
fn edges_to(alloc: Global, graph: &[Vec<usize>]) -> Result<Vec<Vec<Edge>>, AllocError> {
    let mut edges_to: Vec<Vec<Edge>> = Vec::new(alloc);
    for _ in graph {
        edges_to.push(Vec::new(alloc))?;
    }
    for from in 0..graph.len() {
        let targets = &graph[from];
        for place in 0..targets.len() {
            if let Some(edges) = edges_to.get_mut(targets[place]) {
                edges.push(Edge { from, place })?;
            }
        }
    }
    Ok(edges_to)
}
