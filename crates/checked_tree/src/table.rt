ghost use Rattle.std.specs.Prelude.{◌≡◌, ◌<◌, [], Some, length, map, replicate, slice_set, IfOk};
ghost use Rattle.std.specs.Rc.{rc_value};
ghost use Rattle.polyhedra.specs.Laws.{HaveCanonicalRows};
ghost use Rattle.checked_tree.specs.Graph.{bare_links};
ghost use Rattle.checked_tree.specs.Law.{HaveCanonicalLeaves};
ghost use Rattle.checked_tree.specs.Tree.{tree_of, formula_of};
ghost use Rattle.checked_tree.specs.Grown.{cell_map, trees_of, formulas_of};
ghost use Rattle.checked_tree.specs.Growing.{bare_growth, growth_at, grown_tree, tree_cell, IsGrownAt, IsGrownCell, AreGrownCells};

use crate::checked::Checked;
use crate::growth::Growth;
use items::Items;
use linear_terms::{Case, see_rows};
use path_expr::{Cell, Link};
use polyhedra::Vocabulary;
use std::alloc::{AllocError, Global};
use std::rc::Rc;
use transition_formula::Formula;

/// Each case's rows have their monomials in print order, each once. It goes over the cases and has
/// no part in an answer.
pub(crate) fn see_cases(cases: &[Case])
    ensures { HaveCanonicalRows cases.now }
{
    for case in cases {
        see_rows(case.rows.as_slice());
    }
}

/// So have those of each leaf.
pub(crate) fn see_leaves(leaves: &[Formula])
    ensures { HaveCanonicalLeaves (bare_links [] leaves.now) }
{
    for leaf in leaves {
        see_cases(leaf.cases());
    }
}

/// The vocabularies, each kept once for all steps.
pub(crate) fn shared_vocabularies(
    alloc: Global,
    nodes: &[Vocabulary],
) -> Result<Items<Rc<Vocabulary>>, AllocError>
    ensures { IfOk result (λ all. map rc_value all ≡ nodes.now) }
{
    let mut all = Items::new(alloc);
    for voc in nodes {
        all.push(Rc::new(alloc, voc.clone()?)?)?;
    }
    Ok(all)
}

/// So many growths without a tree.
pub(crate) fn bare_growths(alloc: Global, count: usize) -> Result<Items<Growth>, AllocError>
    ensures { IfOk result (λ growths. growths ≡ replicate count bare_growth) }
{
    let mut growths = Items::new(alloc);
    for _place in 0..count {
        growths.push(Growth {
            from: 0,
            to: 0,
            tree: None,
        })?;
    }
    Ok(growths)
}

/// The tree of a number that has one.
pub(crate) fn tree_at(growths: &[Growth], number: usize) -> &Checked
    requires { IsGrownAt growths.now number }
    ensures { grown_tree (growth_at growths.now number) ≡ Some (tree_of result.now) }
{
    match &growths[number].tree {
        Some(tree) => tree,
        None => unreachable!(),
    }
}

/// The nodes that the path of a number leads from and to.
pub(crate) fn ends_at(growths: &[Growth], number: usize) -> Link
    ensures { result
        ≡ record {
          from = (growth_at growths.now number).from;
          to = (growth_at growths.now number).to;
        } }
{
    match growths.get(number) {
        Some(growth) => Link {
            from: growth.from,
            to: growth.to,
        },
        None => Link { from: 0, to: 0 },
    }
}

/// The growths with one of them set.
pub(crate) fn with_growth(growths: Items<Growth>, number: usize, growth: Growth) -> Items<Growth>
    requires { number < length growths }
    ensures { result ≡ slice_set growths number growth }
{
    let mut growths = growths.into_vec();
    growths[number] = growth;
    Items::from_vec(growths)
}

/// What stands at each node.
pub(crate) fn cells_by(
    alloc: Global,
    growths: &[Growth],
    cells: &[Cell<usize>],
) -> Result<Items<Cell<Checked>>, AllocError>
    requires { AreGrownCells growths.now cells.now }
    ensures { IfOk result (λ made. trees_of made ≡ map (tree_cell growths.now) cells.now) }
{
    let mut made = Items::new(alloc);
    for cell in cells {
        made.push(cell_by(growths, cell)?)?;
    }
    Ok(made)
}

fn cell_by(growths: &[Growth], cell: &Cell<usize>) -> Result<Cell<Checked>, AllocError>
    requires { IsGrownCell growths.now cell.now }
    ensures { IfOk result (λ made. cell_map tree_of made ≡ tree_cell growths.now cell.now) }
{
    match cell {
        Cell::Zero => Ok(Cell::Zero),
        Cell::One => Ok(Cell::One),
        Cell::Item(number) => Ok(Cell::Item(tree_at(growths, *number).clone()?)),
    }
}

/// The formulas of what stands at each node.
pub fn formulas_of(
    alloc: Global,
    cells: &[Cell<Checked>],
) -> Result<Items<Cell<Formula>>, AllocError>
    ensures { IfOk result (λ made. made ≡ formulas_of cells.now) }
{
    let mut made = Items::new(alloc);
    for cell in cells {
        made.push(formula_cell(cell)?)?;
    }
    Ok(made)
}

fn formula_cell(cell: &Cell<Checked>) -> Result<Cell<Formula>, AllocError>
    ensures { IfOk result (λ made. made ≡ cell_map (λ tree. formula_of (tree_of tree)) cell.now) }
{
    match cell {
        Cell::Zero => Ok(Cell::Zero),
        Cell::One => Ok(Cell::One),
        Cell::Item(tree) => Ok(Cell::Item(tree.formula().clone()?)),
    }
}
