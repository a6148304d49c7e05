ghost use Rattle.std.specs.Prelude.{◌≡◌, ◌<◌, [], Some, length, map, IfOk};
ghost use Rattle.std.specs.Rc.{rc_value};
ghost use Rattle.posing.specs.Follows.{Asks};
ghost use Rattle.polyhedra.specs.Laws.{HaveCanonicalRows};
ghost use Rattle.checked_tree.specs.Graph.{bare, bare_links, link_at, leaf_at, vocabulary_at};
ghost use Rattle.checked_tree.specs.ByNumber.{link_formula, ends_by, formula_by, key_at, with_number};
ghost use Rattle.checked_tree.specs.Tree.{tree_of, formula_of};
ghost use Rattle.checked_tree.specs.Grown.{result_map};
ghost use Rattle.checked_tree.specs.Growing.{graph_in, growth_at, IsDueLink, grown_tree, entries_in, IsGrowable, IsNextGrowth, IsLeafOf, IsTreeBy, IsNew, HasGrown};

use crate::checked::{Checked, LinkLeaf};
use crate::growth::Growth;
use crate::key::Key;
use crate::table::{ends_at, tree_at, with_growth};
use farkas_check::Oracle;
use items::Items;
use path_expr::Link;
use polyhedra::{Log, Vocabulary, WorkError};
use std::alloc::Global;
use std::rc::Rc;
use transition_formula::Formula;

/// A graph whose nodes share their vocabularies with the steps of trees.
#[derive(Clone, Copy)]
pub(crate) struct SharedGraph<'a> {
    pub links: &'a [Link],
    /// The formula of each link.
    pub leaves: &'a [Formula],
    /// The vocabulary of each node.
    pub nodes: &'a [Rc<Vocabulary>],
}

fn link_at(links: &[Link], number: u32) -> Link
    ensures { result ≡ link_at (bare_links links.now []) number }
{
    match links.get(number as usize) {
        Some(link) => *link,
        None => Link { from: 0, to: 0 },
    }
}

fn leaf_at(leaves: &[Formula], number: u32) -> &Formula
    requires { number < length leaves.now }
    ensures { result.now ≡ leaf_at (bare_links [] leaves.now) number }
{
    &leaves[number as usize]
}

fn vocabulary_at(nodes: &[Rc<Vocabulary>], node: u32) -> &Rc<Vocabulary>
    requires { node < length nodes.now }
    ensures { result.now.value ≡ vocabulary_at (bare (map rc_value nodes.now)) node }
{
    &nodes[node as usize]
}

fn key_at(keys: &[Key], number: usize) -> Key
    ensures { result ≡ key_at keys.now number }
{
    match keys.get(number) {
        Some(key) => *key,
        None => Key::Edge(0),
    }
}

/// The nodes that the path of a key leads from and to.
fn ends_by(links: &[Link], growths: &[Growth], key: Key) -> Link
    ensures { result ≡ ends_by (bare_links links.now []) (entries_in growths.now) key }
{
    match key {
        Key::Edge(number) => link_at(links, number),
        Key::Seq(first, second) => Link {
            from: ends_at(growths, first).from,
            to: ends_at(growths, second).to,
        },
        Key::Join(left, _) => ends_at(growths, left),
        Key::Star(turn) => {
            let from = ends_at(growths, turn).from;
            Link { from, to: from }
        }
    }
}

/// The tree of a link.
fn of_link<O: Oracle>(
    alloc: Global,
    graph: SharedGraph,
    number: u32,
    oracle: &mut O,
    log: &mut Log,
) -> Result<Checked, WorkError>
    requires due { IsDueLink (graph_in graph) number }
    requires canonical { HaveCanonicalRows (leaf_at (graph_in graph) number).cases }
    ensures follows { Asks O.asking oracle log
        (result_map (λ tree. formula_of (tree_of tree)) result)
        (link_formula (graph_in graph.entry) number) }
    ensures of_leaf { IfOk result (λ tree. IsLeafOf (graph_in graph.entry) number (tree_of tree)) }
    ensures new { IfOk result (λ tree. IsNew log.old log.new (tree_of tree)) }
{
    let link = link_at(graph.links, number);
    let given = leaf_at(graph.leaves, number);
    let start = vocabulary_at(graph.nodes, link.from);
    let end = vocabulary_at(graph.nodes, link.to);
    let leaf = LinkLeaf {
        number,
        given,
        from: start,
        to: end,
    };
    Checked::leaf(alloc, leaf, oracle, log)
}

/// The tree of the path of a key, from those of its operands.
fn tree_by<O: Oracle>(
    alloc: Global,
    graph: SharedGraph,
    growths: &[Growth],
    key: Key,
    oracle: &mut O,
    log: &mut Log,
) -> Result<Checked, WorkError>
    requires { IsGrowable (graph_in graph) growths.now key }
    ensures follows { Asks O.asking oracle log
        (result_map (λ tree. formula_of (tree_of tree)) result)
        (formula_by (graph_in graph.entry) (entries_in growths.now) key) }
    ensures by { IfOk result
        (λ tree. IsTreeBy (graph_in graph.entry) growths.now key (tree_of tree)) }
    ensures new { IfOk result (λ tree. IsNew log.old log.new (tree_of tree)) }
{
    match key {
        Key::Edge(number) => of_link(alloc, graph, number, oracle, log),
        Key::Seq(i, j) => {
            let first = tree_at(growths, i);
            let second = tree_at(growths, j);
            Checked::seq(alloc, first, second, oracle, log)
        }
        Key::Join(i, j) => {
            let left = tree_at(growths, i);
            let right = tree_at(growths, j);
            Checked::join(alloc, left, right, oracle, log)
        }
        Key::Star(i) => {
            let turn = tree_at(growths, i);
            Checked::star(alloc, turn, oracle, log)
        }
    }
}

/// One operation more, of the path of a number.
#[tactic(auto, using(posing::proofs::Following::following), unfolding(crate::specs::ByNumber::with_number))]
pub(crate) fn with_number<O: Oracle>(
    alloc: Global,
    graph: SharedGraph,
    keys: &[Key],
    growths: Items<Growth>,
    number: usize,
    oracle: &mut O,
    log: &mut Log,
) -> Result<Items<Growth>, WorkError>
    requires { IsNextGrowth (graph_in graph) keys.now growths number }
    ensures follows { Asks O.asking oracle log
        (result_map entries_in result)
        (with_number (graph_in graph.entry) keys.now (entries_in growths) number) }
    ensures grown { IfOk result
        (λ next. HasGrown (graph_in graph.entry) keys.now growths number log.old log.new next) }
{
    let key = key_at(keys, number);
    let made = growths.as_slice();
    let ends = ends_by(graph.links, made, key);
    let tree = tree_by(alloc, graph, made, key, oracle, log)?;
    let growth = Growth {
        from: ends.from,
        to: ends.to,
        tree: Some(tree),
    };
    Ok(with_growth(growths, number, growth))
}
