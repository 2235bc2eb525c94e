//! The graph of a text, built as the text is read.
ghost use Rattle.std.specs.Prelude.{◌≡◌, ◌≤◌, ◌++◌, ◌∷◌, [], drop, map, length, vec_len, OnOk, IfOk, List};
ghost use Rattle.import_formats.specs.dot.Graphs.{DotEvent, chain, unsaid_weight, graph_in};
ghost use Rattle.import_formats.specs.dot.View.{mention_of, event_of, finished, graph_view};

use crate::dot::events::Event;
use import_lines::{Edge, Mention, Weight};
use std::alloc::{AllocError, Global};

/// What a text says.
#[derive(Drop)]
pub struct Graph<'a> {
    /// Each node that the text names, as often as it does and in its order.
    pub nodes: Vec<Mention<'a>>,
    /// The edges, in the order of the text.
    pub edges: Vec<Edge<'a>>,
}

/// What a text says so far.
#[derive(Drop)]
pub(crate) struct Builder<'a> {
    /// The nodes.
    pub(crate) nodes: Vec<Mention<'a>>,
    /// The edges of the statements that are ended.
    pub(crate) edges: Vec<Edge<'a>>,
    /// How many nodes stand before the statement that is begun.
    pub(crate) passed: usize,
    /// The weight that is said last in this statement.
    pub(crate) weight: Weight,
    /// The weight where none is said.
    pub(crate) unsaid: Weight,
}

/// The weight where none is said: 1 times the factor.
fn unsaid_weight(factor: Option<u32>) -> Weight
    ensures { result ≡ unsaid_weight factor }
{
    match factor {
        Some(factor) => Weight {
            value: factor,
            exact: true,
        },
        None => Weight {
            value: 1,
            exact: true,
        },
    }
}

/// Adds the edges between each node of a chain and the next.
fn push_chain<'a>(
    edges: &mut Vec<Edge<'a>>,
    ends: &[Mention<'a>],
    weight: Weight,
) -> Result<(), AllocError>
    ensures { OnOk result (edges.new.items ≡ edges.old.items ++ chain weight (map mention_of ends.now)) }
{
    let mut rest = ends;
    while let [first, second, ..] = rest {
        edges.push(Edge::new(first.name, second.name, weight, first.line))?;
        rest = &rest[1..];
    }
    Ok(())
}

impl<'a> Builder<'a> {
    /// Nothing is said yet.
    pub(crate) fn new(alloc: Global, factor: Option<u32>) -> Builder<'a>
        ensures graph { (es : List DotEvent) → finished result es ≡ graph_in factor es }
        ensures bound { result.passed ≤ vec_len result.nodes }
    {
        let unsaid = unsaid_weight(factor);
        Builder {
            nodes: Vec::new(alloc),
            edges: Vec::new(alloc),
            passed: 0,
            weight: unsaid,
            unsaid,
        }
    }

    /// Ends the statement.
    fn settle(&mut self) -> Result<(), AllocError>
        requires { self.old.passed ≤ vec_len self.old.nodes }
        ensures nodes { OnOk result (self.new.nodes.items ≡ self.old.nodes.items) }
        ensures edges { OnOk result (self.new.edges.items ≡ self.old.edges.items ++ chain self.old.weight (map mention_of (drop self.old.passed self.old.nodes.items))) }
        ensures passed { OnOk result (self.new.passed ≡ vec_len self.new.nodes) }
        ensures weight { OnOk result (self.new.weight ≡ self.old.unsaid) }
        ensures unsaid { OnOk result (self.new.unsaid ≡ self.old.unsaid) }
    {
        push_chain(
            &mut self.edges,
            &self.nodes.as_slice()[self.passed..],
            self.weight,
        )?;
        self.passed = self.nodes.len();
        self.weight = self.unsaid;
        Ok(())
    }

    /// Takes what a token says.
    pub(crate) fn take(&mut self, event: Event<'a>) -> Result<(), AllocError>
        requires { self.old.passed ≤ vec_len self.old.nodes }
        ensures graph { OnOk result ((es : List DotEvent) → finished self.new es ≡ finished self.old (event_of event.entry ∷ es)) }
        ensures bound { OnOk result (self.new.passed ≤ vec_len self.new.nodes) }
    {
        match event {
            Event::Nothing => {}
            Event::Begins(mention) => {
                self.settle()?;
                self.nodes.push(mention)?;
            }
            Event::Joins(mention) => self.nodes.push(mention)?,
            Event::Weighs(weight) => self.weight = weight,
        }
        Ok(())
    }

    /// The graph, where the text is at its end.
    pub(crate) fn finish(self) -> Result<Graph<'a>, AllocError>
        requires { self.passed ≤ vec_len self.nodes }
        ensures { IfOk result (λ g. graph_view g ≡ finished self.entry []) }
    {
        let mut builder = self;
        builder.settle()?;
        let Builder { nodes, edges, .. } = builder;
        Ok(Graph { nodes, edges })
    }
}
