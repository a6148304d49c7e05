ghost use Rattle.std.specs.Prelude.{◌≡◌, ◌+◌, ◌<◌, ◌^◌, cond, map, length, slice_index, IfOk, IsTrue};
ghost use Rattle.std.specs.List.{list_all, list_any, range_with_len};
ghost use Rattle.linear_terms.specs.Auxiliaries.{occurs, renumbered_polynomial, is_numbered, KeepsOrder};
ghost use Rattle.transition_formula.specs.Transition.{every_column, every_column_of};
ghost use Rattle.transition_formula.specs.Renumbering.{occurs_in, new_number, renumbered_row, renumbered_case};

use crate::FormulaError;
use items::Items;
use linear_terms::{Case, Poly, Row, renumbered_poly};
use std::alloc::Global;

/// The case without auxiliaries that occur nowhere, the others numbered anew in order.
pub(crate) fn renumbered_case(alloc: Global, case: &Case) -> Result<Case, FormulaError>
    requires { IsTrue (every_column_of (is_numbered case.now.aux) case.now) }
    ensures { IfOk result (λ c. c ≡ renumbered_case case.now) }
{
    let numbers = new_numbers(alloc, case)?;
    let numbers = numbers.as_slice();
    let rows = rows_renumbered(alloc, case.rows.as_slice(), numbers)?;
    let post = posts_renumbered(alloc, case.post.as_slice(), numbers)?;
    Ok(Case {
        aux: numbers[case.aux as usize],
        rows,
        post,
    })
}

/// The new number of each auxiliary, and how many there are then.
fn new_numbers(alloc: Global, case: &Case) -> Result<Items<u32>, FormulaError>
    ensures { IfOk result
        (λ numbers. numbers ≡ map (new_number case.now) (range_with_len 0 (case.now.aux + 1))) }
{
    let mut numbers = Items::new(alloc);
    let mut count = 0;
    for number in 0..case.aux {
        numbers.push(count)?;
        count = count_with(count, occurs_in(case, number));
    }
    numbers.push(count)?;
    Ok(numbers)
}

fn count_with(count: u32, one: bool) -> u32
    requires { count + 1 < 2 ^ 32 }
    ensures { result ≡ cond one (count + 1) count }
{
    if one { count + 1 } else { count }
}

fn occurs_in(case: &Case, aux: u32) -> bool
    ensures { result ≡ occurs_in case.now aux }
{
    any_row_has(case.rows.as_slice(), aux) || any_post_has(case.post.as_slice(), aux)
}

fn any_row_has(rows: &[Row], aux: u32) -> bool
    ensures { result ≡ list_any (λ row. occurs aux row.poly) rows.now }
{
    rows.iter().any(|row| row.poly.has_auxiliary(aux))
}

fn any_post_has(posts: &[Poly], aux: u32) -> bool
    ensures { result ≡ list_any (occurs aux) posts.now }
{
    posts.iter().any(|post| post.has_auxiliary(aux))
}

fn rows_renumbered(alloc: Global, rows: &[Row], numbers: &[u32]) -> Result<Items<Row>, FormulaError>
    requires numbered { IsTrue
        (list_all (λ row. every_column (is_numbered (length numbers.now)) row.poly) rows.now) }
    requires order { KeepsOrder (slice_index numbers.now)
        (λ n. list_any (λ row. occurs n row.poly) rows.now) }
    ensures { IfOk result (λ made. made ≡ map (renumbered_row (slice_index numbers.now)) rows.now) }
{
    let mut made = Items::new(alloc);
    for row in rows {
        let poly = renumbered_poly(alloc, &row.poly, numbers)?;
        made.push(Row {
            poly,
            kind: row.kind,
        })?;
    }
    Ok(made)
}

fn posts_renumbered(
    alloc: Global,
    posts: &[Poly],
    numbers: &[u32],
) -> Result<Items<Poly>, FormulaError>
    requires numbered { IsTrue
        (list_all (every_column (is_numbered (length numbers.now))) posts.now) }
    requires order { KeepsOrder (slice_index numbers.now) (λ n. list_any (occurs n) posts.now) }
    ensures { IfOk result (λ made. made ≡ map (renumbered_polynomial (slice_index numbers.now)) posts.now) }
{
    let mut made = Items::new(alloc);
    for post in posts {
        made.push(renumbered_poly(alloc, post, numbers)?)?;
    }
    Ok(made)
}
