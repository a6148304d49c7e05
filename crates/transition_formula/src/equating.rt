ghost use Rattle.std.specs.Prelude.{◌≡◌, ◌↔◌, ◌+◌, ◌<◌, ◌≤◌, ◌^◌, ◌++◌, ◌∷◌, [], ℤ, List, All, map, take, drop, length, IfOk, OnErr, OnOk};
ghost use Rattle.std.specs.List.{filter_map, flat_map};
ghost use Rattle.linear_terms.specs.declared.row.Kind.TheVariants.{Equal};
ghost use Rattle.transition_formula.specs.Composition.{row_of};
ghost use Rattle.transition_formula.specs.Equating.{differences, equated_case, losses_in_equating_case, equated_formula, losses_in_equating, raised_formula};
ghost use Rattle.transition_formula.specs.Loss.{losses_of};
ghost use Rattle.transition_formula.specs.Meaning.{Holds};
ghost use Rattle.transition_formula.specs.Posts.{numbers_at};

use crate::compose::column;
use crate::loss::note;
use crate::posts::posts_at;
use crate::{Formula, FormulaError, Loss};
use items::Items;
use linear_terms::{Case, Col, Kind, Poly, Row, difference};
use std::alloc::Global;

/// The formula over at least as many entry columns as it has. It says nothing of the others.
pub fn raised_formula(f: &Formula, from: u32) -> Result<Formula, FormulaError>
    requires { f.now.from ≤ from }
    ensures exact { IfOk result (λ g. g ≡ raised_formula from f.now) }
    ensures holds { (before after : List ℤ)
        → IfOk result
        (λ g. Holds g before after
        ↔ (Holds f.now (take f.now.from before) after × (length before ≡ from))) }
{
    let cases = f.cases.clone()?;
    Ok(Formula {
        from,
        to: f.to,
        cases,
    })
}

/// The formula where the entry columns from `first` on are the posts at these places, in their
/// order. It holds of the states that the formula links where these columns have those numbers, and
/// of no others where nothing was lost. Each loss is noted after those that are there. After an
/// error nothing is noted.
pub fn equated_formula(
    alloc: Global,
    f: &Formula,
    first: u32,
    places: &[u32],
    losses: &mut Items<Loss>,
) -> Result<Formula, FormulaError>
    requires there { All (λ place. place < f.now.to) places.now }
    requires columns { first + length places.now ≤ f.now.from }
    ensures exact { IfOk result (λ g. g ≡ equated_formula first places.now f.now) }
    ensures noted { OnOk result
        (losses.new ≡ losses.old ++ losses_in_equating first places.now f.now) }
    ensures kept { OnErr result (losses.new ≡ losses.old) }
    ensures at_least { (before after : List ℤ)
        → IfOk result
        (λ g. take (length places.now) (drop first before) ≡ numbers_at places.now after
        → Holds f.now before after → Holds g before after) }
    ensures at_most { (before after : List ℤ) → losses.new ≡ losses.old
        → IfOk result (λ g. Holds g before after
        → (Holds f.now before after
        × (take (length places.now) (drop first before) ≡ numbers_at places.now after))) }
{
    let from = f.from();
    let mut lost = Items::new(alloc);
    let cases = equated_cases(alloc, f, first, places, &mut lost)?;
    losses.append(lost)?;
    Ok(Formula {
        from,
        to: f.to,
        cases,
    })
}

fn equated_cases(
    alloc: Global,
    f: &Formula,
    first: u32,
    places: &[u32],
    losses: &mut Items<Loss>,
) -> Result<Items<Case>, FormulaError>
    requires there { All (λ place. place < f.now.to) places.now }
    requires few { first + length places.now < 2 ^ 32 }
    ensures made { IfOk result (λ cases. cases ≡ map (equated_case first places.now) f.now.cases) }
    ensures noted { OnOk result
        (losses.new ≡ losses.old ++ losses_in_equating first places.now f.now) }
{
    let mut cases = Items::new(alloc);
    for case in f.cases() {
        cases.push(equated_case(alloc, case, first, places, losses)?)?;
    }
    Ok(cases)
}

fn equated_case(
    alloc: Global,
    case: &Case,
    first: u32,
    places: &[u32],
    losses: &mut Items<Loss>,
) -> Result<Case, FormulaError>
    requires there { All (λ place. place < length case.now.post) places.now }
    requires few { first + length places.now < 2 ^ 32 }
    ensures made { IfOk result (λ c. c ≡ equated_case first places.now case.now) }
    ensures noted { OnOk result
        (losses.new ≡ losses.old ++ losses_in_equating_case first places.now case.now) }
{
    let mut rows = case.rows.clone()?;
    let told = posts_at(alloc, case.post.as_slice(), places)?;
    add_equations(alloc, first, told.as_slice(), &mut rows, losses)?;
    let post = case.post.clone()?;
    Ok(Case {
        aux: case.aux,
        rows,
        post,
    })
}

/// A row behind others for each post, which says that it is the entry column of its turn. Those
/// that are lost are noted.
fn add_equations(
    alloc: Global,
    first: u32,
    posts: &[Poly],
    rows: &mut Items<Row>,
    losses: &mut Items<Loss>,
) -> Result<(), FormulaError>
    requires { first + length posts.now < 2 ^ 32 }
    ensures made { OnOk result
        (rows.new ≡ rows.old ++ filter_map (row_of Equal) (differences first posts.now)) }
    ensures noted { OnOk result
        (losses.new ≡ losses.old ++ flat_map losses_of (differences first posts.now)) }
{
    let mut number = first;
    for post in posts {
        add_equation(alloc, number, post, rows, losses)?;
        number += 1;
    }
    Ok(())
}

fn add_equation(
    alloc: Global,
    number: u32,
    post: &Poly,
    rows: &mut Items<Row>,
    losses: &mut Items<Loss>,
) -> Result<(), FormulaError>
    ensures made { OnOk result
        (rows.new ≡ rows.old ++ filter_map (row_of Equal) (differences number (post.now ∷ []))) }
    ensures noted { OnOk result
        (losses.new ≡ losses.old ++ flat_map losses_of (differences number (post.now ∷ []))) }
{
    let entry = column(alloc, Col::At(number))?;
    match difference(alloc, &entry, post) {
        Ok(poly) => rows.push(Row {
            poly,
            kind: Kind::Equal,
        })?,
        Err(error) => note(error, losses)?,
    }
    Ok(())
}
