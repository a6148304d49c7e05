ghost use Rattle.std.specs.Prelude.{◌≡◌, ◌<◌, length};
ghost use Rattle.checked_tree.specs.Graph.{leaf_at, link_at, vocabulary_at};
ghost use Rattle.forward_graphs.specs.Graph.{graph_in};

use path_expr::Link;
use polyhedra::Vocabulary;
use transition_formula::Formula;

/// A graph each of whose links leads to a later node.
#[derive(Clone, Copy)]
pub struct ForwardGraph<'a> {
    pub links: &'a [Link],
    /// The formula of each link, between the vocabularies of its ends.
    pub leaves: &'a [Formula],
    /// The vocabulary of each node.
    pub nodes: &'a [Vocabulary],
}

pub(crate) fn link_at(graph: ForwardGraph, number: usize) -> Link
    requires { number < length graph.links.now }
    ensures { result ≡ link_at (graph_in graph.entry) number }
{
    graph.links[number]
}

pub(crate) fn leaf_at<'a>(graph: ForwardGraph<'a>, number: usize) -> &'a Formula
    requires { number < length graph.leaves.now }
    ensures { result.now ≡ leaf_at (graph_in graph.entry) number }
{
    &graph.leaves[number]
}

pub(crate) fn vocabulary_at<'a>(graph: ForwardGraph<'a>, node: usize) -> &'a Vocabulary
    requires { node < length graph.nodes.now }
    ensures { result.now ≡ vocabulary_at (graph_in graph.entry) node }
{
    &graph.nodes[node]
}
