ghost use Rattle.std.specs.Prelude.{◌≡◌, ◌<◌, ◌==◌, ◌&&◌, ◌^◌, ◌++◌, ◌∷◌, [], ℕ, length, IfOk, OnOk, if◌then◌else◌};
ghost use Rattle.path_expr.specs.Elimination.{place_of, links_between};
ghost use Rattle.path_expr.specs.Table.{row_count};
ghost use Rattle.path_expr.specs.Numbers.{numbers_at};
ghost use Rattle.path_expr.specs.Walks.{IsGraph};

use crate::link::Link;
use crate::rows::Rows;
use items::Items;
use std::alloc::{AllocError, Global};

/// The place of a node: the source's is 0, the others follow in their order.
fn place(source: u32, node: u32) -> u32
    ensures { result ≡ place_of source node }
{
    if node == source {
        0
    } else if node < source {
        node + 1
    } else {
        node
    }
}

/// Puts a link's number behind those for places i and j.
fn put_number(
    alloc: Global,
    numbers: &mut Rows<Items<u32>>,
    i: u32,
    j: u32,
    number: u32,
) -> Result<(), AllocError>
    requires { i < row_count numbers.old }
    ensures rows { row_count numbers.new ≡ row_count numbers.old }
    ensures numbers { OnOk result ((a b : ℕ) → numbers_at numbers.new a b
        ≡ numbers_at numbers.old a b ++ (if i == a && j == b then number ∷ [] else [])) }
{
    let mut these = match numbers.take(i, j) {
        Some(these) => these,
        None => Items::new(alloc),
    };
    these.push(number)?;
    numbers.put(i, j, these)
}

/// The numbers of the links, by the places that the links lead from and to, each time in the order
/// of the links.
pub(crate) fn link_numbers(
    alloc: Global,
    links: &[Link],
    source: u32,
    nodes: u32,
) -> Result<Rows<Items<u32>>, AllocError>
    requires count { length links.now < 2 ^ 32 }
    requires graph { IsGraph nodes links.now }
    requires source { source < nodes }
    ensures numbers { IfOk result (λ numbers. (i j : ℕ)
        → numbers_at numbers i j ≡ links_between source 0 links.now i j) }
{
    let mut numbers = Rows::new(alloc, nodes)?;
    for number in 0..links.len() {
        let link = &links[number];
        let from = place(source, link.from);
        let to = place(source, link.to);
        put_number(alloc, &mut numbers, from, to, number as u32)?;
    }
    Ok(numbers)
}
