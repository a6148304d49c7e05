ghost use Rattle.std.specs.Prelude.{◌≡◌, ◌<◌, length, All, IfOk, replicate, false};
ghost use Rattle.path_expr.specs.Walks.{IsGraph};
ghost use Rattle.newton_rounds.specs.Reached.{TellsReached, after_links, grow_over, with_marks};

use items::Items;
use path_expr::Link;
use std::alloc::{AllocError, Global};

/// The nodes of a graph that walks lead to from some of its nodes: a mark for each node.
pub(crate) fn reach_marks(
    alloc: Global,
    nodes: u32,
    links: &[Link],
    starts: &[u32],
) -> Result<Items<bool>, AllocError>
    requires graph { IsGraph nodes links.now }
    requires starts { All (λ node. node < nodes) starts.now }
    ensures { IfOk result (λ marks. TellsReached nodes links.now starts.now marks) }
{
    let mut marks = marks_of(alloc, nodes, starts)?;
    while spread(links, &mut marks) {}
    Ok(Items::from_vec(marks))
}

/// Marks for so many nodes, of which these have one.
fn marks_of(alloc: Global, nodes: u32, starts: &[u32]) -> Result<Vec<bool>, AllocError>
    requires { All (λ node. node < nodes) starts.now }
    ensures { IfOk result (λ marks. marks.items ≡ with_marks (replicate nodes false) starts.now) }
{
    let mut marks = Vec::new(alloc);
    for _node in 0..nodes {
        marks.push(false)?;
    }
    for start in starts {
        marks[*start as usize] = true;
    }
    Ok(marks)
}

/// Marks the end of each link whose beginning is marked, link by link. It tells whether that marked
/// any.
fn spread(links: &[Link], marks: &mut Vec<bool>) -> bool
    requires { IsGraph (length marks.old.items) links.now }
    ensures marks { marks.new.items ≡ after_links marks.old.items links.now }
    ensures grows { result ≡ grow_over marks.old.items links.now }
{
    let mut changed = false;
    for link in links {
        if marks[link.from as usize] && !marks[link.to as usize] {
            marks[link.to as usize] = true;
            changed = true;
        }
    }
    changed
}
