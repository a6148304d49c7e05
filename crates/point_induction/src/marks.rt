ghost use Rattle.std.specs.Prelude.{◌≡◌, false, length, replicate, IfOk};
ghost use Rattle.flow_graph.specs.Plain.{plain};
ghost use Rattle.point_induction.specs.Heads.{AreInside, head_marks, marked_numbers};
ghost use Rattle.point_induction.specs.Points.{heads_of};

use flow_graph::Graph;
use items::Items;
use std::alloc::{AllocError, Global};

/// The heads of a graph, in the order of their numbers. An error is want of memory.
pub fn heads(alloc: Global, graph: &Graph) -> Result<Items<u32>, AllocError>
    requires { AreInside graph.now }
    ensures { IfOk result (λ heads. heads ≡ heads_of (plain graph.now)) }
{
    let marks = head_marks(alloc, graph)?;
    marked_numbers(alloc, graph.nodes, marks.as_slice())
}

/// For each node of a graph whether it is a head: whether an edge ends there that does not lead
/// forward. An error is want of memory.
pub fn head_marks(alloc: Global, graph: &Graph) -> Result<Items<bool>, AllocError>
    requires { AreInside graph.now }
    ensures { IfOk result (λ marks. marks ≡ head_marks (plain graph.now)) }
{
    let edges = graph.edges.as_slice();
    let mut marks = no_marks(alloc, graph.nodes)?;
    for edge in edges {
        if edge.to <= edge.from {
            marks[edge.to as usize] = true;
        }
    }
    Ok(Items::from_vec(marks))
}

fn no_marks(alloc: Global, count: u32) -> Result<Vec<bool>, AllocError>
    ensures { IfOk result (λ marks. marks.items ≡ replicate count false) }
{
    let mut marks = Vec::new(alloc);
    for _node in 0..count {
        marks.push(false)?;
    }
    Ok(marks)
}

/// The numbers that are marked, in ascending order.
fn marked_numbers(alloc: Global, count: u32, marks: &[bool]) -> Result<Items<u32>, AllocError>
    requires { length marks.now ≡ count }
    ensures { IfOk result (λ numbers. numbers ≡ marked_numbers count marks.now) }
{
    let mut numbers = Items::new(alloc);
    for number in 0..count {
        if marks[number as usize] {
            numbers.push(number)?;
        }
    }
    Ok(numbers)
}
