//! The graph of what patterns refer to.
ghost use Rattle.std.specs.Prelude.{Some, OnOk, IfOk};
ghost use Rattle.fluent_syntax_names.specs.Cycles.{link_to, links_in, links, no_pattern};
ghost use Rattle.fluent_syntax_names.specs.ReferenceGraphs.{AddsLinks, IsReferenceGraph, IsSomeReferenceGraph};

use crate::mention::Mention;
use crate::name_index::NameIndex;
use crate::named_lists::NamedLists;
use crate::pattern_references::{NO_PATTERN, pattern_after, referenced_pattern};
use crate::qualified_names::{PatternName, qualified_pattern};
use fluent_syntax_tree::spans::Span;
use std::alloc::{AllocError, Global};

/// A graph of names, with an edge from each to those that it leads to.
#[derive(Drop)]
pub(crate) struct ReferenceGraph {
    /// Which node a name is, and where the edges of each node lead.
    pub(crate) nodes: NamedLists<usize>,
}

/// The graph of all that the patterns of the files refer to.
pub(crate) fn reference_graph_of(
    alloc: Global,
    files: &[NameIndex<'_>],
) -> Result<ReferenceGraph, AllocError>
    ensures { IfOk result (λ reference_graph. IsReferenceGraph (links files.now) reference_graph) }
{
    let mut reference_graph = ReferenceGraph {
        nodes: NamedLists::new(alloc),
    };
    for file in files {
        reference_graph.add_file(alloc, file.text, &file.mentions)?;
    }
    Ok(reference_graph)
}

impl ReferenceGraph {
    /// Draws what the mentions of a file refer to.
    fn add_file(
        &mut self,
        alloc: Global,
        text: &str,
        mentions: &[Mention<Span>],
    ) -> Result<(), AllocError>
        requires { IsSomeReferenceGraph self.old }
        ensures { OnOk result (AddsLinks self.old self.new (links_in text.now no_pattern mentions.now)) }
    {
        let mut pattern = NO_PATTERN;
        for mention in mentions {
            self.add_reference(alloc, text, pattern, referenced_pattern(mention))?;
            pattern = pattern_after(pattern, mention);
        }
        Ok(())
    }

    /// Draws that the pattern refers to the target, if there is one.
    fn add_reference(
        &mut self,
        alloc: Global,
        text: &str,
        pattern: PatternName,
        target: Option<PatternName>,
    ) -> Result<(), AllocError>
        requires { IsSomeReferenceGraph self.old }
        ensures { OnOk result (AddsLinks self.old self.new (link_to text.now pattern target)) }
    {
        match target {
            Some(target) => self.add_link(alloc, text, pattern, target),
            None => Ok(()),
        }
    }

    fn add_link(
        &mut self,
        alloc: Global,
        text: &str,
        pattern: PatternName,
        target: PatternName,
    ) -> Result<(), AllocError>
        requires { IsSomeReferenceGraph self.old }
        ensures { OnOk result (AddsLinks self.old self.new (link_to text.now pattern (Some target))) }
    {
        let from = qualified_pattern(alloc, text, pattern)?;
        let to = qualified_pattern(alloc, text, target)?;
        let from = self.nodes.number_for(alloc, from)?;
        let to = self.nodes.number_for(alloc, to)?;
        self.nodes.push(from, to)?;
        Ok(())
    }
}
