ghost use Rattle.std.specs.Prelude.{◌≡◌, ◌<◌, ◌^◌, ℤ, List, All, length, map, IfOk};
ghost use Rattle.transition_formula.specs.Meaning.{Holds};
ghost use Rattle.transition_formula.specs.Posts.{posts_at, numbers_at, case_with_posts, with_posts, entries_at, case_with_entries, with_entries};

use crate::compose::column;
use crate::{Formula, FormulaError};
use items::Items;
use linear_terms::{Case, Col, Poly};
use std::alloc::Global;

/// The formula with the posts at these places, from 0, in this order. It holds of a state and the
/// numbers at these places of each later state that the formula links to it, and of no others.
pub fn with_posts(alloc: Global, f: &Formula, places: &[u32]) -> Result<Formula, FormulaError>
    requires there { All (λ place. place < f.now.to) places.now }
    requires few { length places.now < 2 ^ 32 }
    ensures exact { IfOk result (λ g. g ≡ with_posts places.now f.now) }
    ensures at_least { (before after : List ℤ)
        → IfOk result (λ g. Holds f.now before after
        → Holds g before (numbers_at places.now after)) }
    ensures at_most { (before told : List ℤ)
        → IfOk result (λ g. Holds g before told
        → ((after : List ℤ) × (Holds f.now before after × (told ≡ numbers_at places.now after)))) }
{
    let cases = cases_with_posts(alloc, f, places)?;
    Ok(Formula {
        from: f.from,
        to: places.len() as u32,
        cases,
    })
}

fn cases_with_posts(alloc: Global, f: &Formula, places: &[u32]) -> Result<Items<Case>, FormulaError>
    requires { All (λ place. place < f.now.to) places.now }
    ensures { IfOk result (λ cases. cases ≡ map (case_with_posts places.now) f.now.cases) }
{
    let mut cases = Items::new(alloc);
    for case in f.cases() {
        cases.push(case_with_posts(alloc, case, places)?)?;
    }
    Ok(cases)
}

fn case_with_posts(alloc: Global, case: &Case, places: &[u32]) -> Result<Case, FormulaError>
    requires { All (λ place. place < length case.now.post) places.now }
    ensures { IfOk result (λ c. c ≡ case_with_posts places.now case.now) }
{
    let rows = case.rows.clone()?;
    let post = posts_at(alloc, case.post.as_slice(), places)?;
    Ok(Case {
        aux: case.aux,
        rows,
        post,
    })
}

pub(crate) fn posts_at(
    alloc: Global,
    posts: &[Poly],
    places: &[u32],
) -> Result<Items<Poly>, FormulaError>
    requires { All (λ place. place < length posts.now) places.now }
    ensures { IfOk result (λ made. made ≡ posts_at places.now posts.now) }
{
    let mut made = Items::new(alloc);
    for place in places {
        made.push(posts[*place as usize].clone()?)?;
    }
    Ok(made)
}

/// The formula with the entry columns at these places, from 0, as its posts, in this order. It
/// holds of a state and the numbers at these places of the same state where the formula links the
/// state to some other, and of no others.
pub fn with_entries(alloc: Global, f: &Formula, places: &[u32]) -> Result<Formula, FormulaError>
    requires there { All (λ place. place < f.now.from) places.now }
    requires few { length places.now < 2 ^ 32 }
    ensures exact { IfOk result (λ g. g ≡ with_entries places.now f.now) }
    ensures at_least { (before after : List ℤ)
        → IfOk result (λ g. Holds f.now before after
        → Holds g before (numbers_at places.now before)) }
    ensures at_most { (before told : List ℤ)
        → IfOk result (λ g. Holds g before told
        → ((after : List ℤ) × (Holds f.now before after × (told ≡ numbers_at places.now before)))) }
{
    let cases = cases_with_entries(alloc, f, places)?;
    Ok(Formula {
        from: f.from,
        to: places.len() as u32,
        cases,
    })
}

fn cases_with_entries(
    alloc: Global,
    f: &Formula,
    places: &[u32],
) -> Result<Items<Case>, FormulaError>
    ensures { IfOk result (λ cases. cases ≡ map (case_with_entries places.now) f.now.cases) }
{
    let mut cases = Items::new(alloc);
    for case in f.cases() {
        cases.push(case_with_entries(alloc, case, places)?)?;
    }
    Ok(cases)
}

fn case_with_entries(alloc: Global, case: &Case, places: &[u32]) -> Result<Case, FormulaError>
    ensures { IfOk result (λ c. c ≡ case_with_entries places.now case.now) }
{
    let rows = case.rows.clone()?;
    let post = entries_at(alloc, places)?;
    Ok(Case {
        aux: case.aux,
        rows,
        post,
    })
}

fn entries_at(alloc: Global, places: &[u32]) -> Result<Items<Poly>, FormulaError>
    ensures { IfOk result (λ made. made ≡ entries_at places.now) }
{
    let mut made = Items::new(alloc);
    for place in places {
        made.push(column(alloc, Col::At(*place))?)?;
    }
    Ok(made)
}
