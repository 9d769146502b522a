//! Which references come back.
ghost use Rattle.std.specs.Prelude.{◌≡◌, IfOk};
ghost use Rattle.fluent_syntax_names.specs.Cycles.{links};
ghost use Rattle.fluent_syntax_names.specs.ReferenceGraphs.{KnowsCycles, same_part, part_at};

use crate::first_places::FirstPlaces;
use crate::graph::components;
use crate::name_index::NameIndex;
use crate::reference_graph::reference_graph_of;
use std::alloc::{AllocError, Global};

/// The parts of the graph of all references: the names of a part reach one another.
#[derive(Drop)]
pub(crate) struct Cycles {
    /// Which node a name is.
    numbers: FirstPlaces<usize>,
    /// In which part a node is.
    parts: Vec<usize>,
}

/// What comes back of all that the patterns of the files refer to.
pub(crate) fn cycles_of(alloc: Global, files: &[NameIndex<'_>]) -> Result<Cycles, AllocError>
    ensures { IfOk result (KnowsCycles (links files.now)) }
{
    let reference_graph = reference_graph_of(alloc, files)?;
    let parts = components(alloc, &reference_graph.nodes.lists)?;
    Ok(Cycles {
        numbers: reference_graph.nodes.numbers,
        parts,
    })
}

impl Cycles {
    /// Whether a reference of the one pattern to the other comes back.
    pub(crate) fn is_cyclic(&self, from: &[u8], to: &[u8]) -> bool
        ensures { result ≡ same_part self.now from.now to.now }
    {
        self.part_of(from) == self.part_of(to)
    }

    /// The part that the name is in.
    fn part_of(&self, name: &[u8]) -> Option<usize>
        ensures { result ≡ part_at self.now name.now }
    {
        let node = self.numbers.place_of(name)?;
        self.parts.get(node).copied()
    }
}
