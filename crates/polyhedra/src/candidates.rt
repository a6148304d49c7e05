ghost use Rattle.std.specs.Prelude.{◌≡◌, [], ◌∷◌, map, not, ◌==◌, Ok, IfOk, OnOk};
ghost use Rattle.std.specs.List.{filter, flat_map};
ghost use Rattle.items.specs.Gives.{Gives};
ghost use Rattle.linear_terms.specs.declared.col.Col.TheVariants.{At};
ghost use Rattle.linear_terms.specs.Equality.{poly_eq};
ghost use Rattle.linear_terms.specs.Expressions.{Made, ◌⊟◌, column};
ghost use Rattle.linear_terms.specs.Polynomial.{column_of};
ghost use Rattle.linear_terms.specs.TermError.{cause};
ghost use Rattle.polyhedra.specs.Directions.{with_new, both_signs, less_others, directions};
ghost use Rattle.polyhedra.specs.Keys.{key_of, TellsMade, with_each};

use crate::Vocabulary;
use items::Items;
use linear_terms::{Col, Mono, Poly, TermError, difference, scale};
use std::alloc::{AllocError, Global};
use std::collections::BTreeSet;

/// What tells a direction from others: its terms and its constant.
type PolyKey = (Items<(Mono, i128)>, i128);

/// The directions in which bounds are asked for: each named column with both signs, each difference
/// of two named columns, and each harvested term with both signs, each once; one with a number past
/// 128 bits is left out.
#[tactic(auto, unfolding(crate::specs::Directions::directions))]
pub fn directions(alloc: Global, voc: &Vocabulary) -> Result<Items<Poly>, AllocError>
    ensures { IfOk result (λ made. made ≡ directions voc.now) }
{
    let mut made = Vec::new(alloc);
    let mut known = BTreeSet::new(alloc);
    add_columns(alloc, &mut made, &mut known, voc.named_columns())?;
    add_differences(alloc, &mut made, &mut known, voc.named_columns())?;
    add_terms(alloc, &mut made, &mut known, voc.harvested_terms())?;
    Ok(Items::from_vec(made))
}

/// Adds each named column with both signs.
fn add_columns(
    alloc: Global,
    made: &mut Vec<Poly>,
    known: &mut BTreeSet<PolyKey>,
    named: &[u32],
) -> Result<(), AllocError>
    requires { TellsMade known.old made.old.items }
    ensures known { OnOk result (TellsMade known.new made.new.items) }
    ensures made { OnOk result
        (made.new.items
        ≡ with_each made.old.items (flat_map (λ v. both_signs (column (At v))) named.now)) }
{
    for v in named {
        let poly = column(alloc, *v)?;
        add_both_signs(alloc, made, known, poly)?;
    }
    Ok(())
}

/// Adds each difference of two different named columns.
fn add_differences(
    alloc: Global,
    made: &mut Vec<Poly>,
    known: &mut BTreeSet<PolyKey>,
    named: &[u32],
) -> Result<(), AllocError>
    requires { TellsMade known.old made.old.items }
    ensures known { OnOk result (TellsMade known.new made.new.items) }
    ensures made { OnOk result
        (made.new.items ≡ with_each made.old.items (flat_map (less_others named.now) named.now)) }
{
    for u in named {
        add_less_others(alloc, made, known, named, *u)?;
    }
    Ok(())
}

/// Adds a column less each of the others.
fn add_less_others(
    alloc: Global,
    made: &mut Vec<Poly>,
    known: &mut BTreeSet<PolyKey>,
    named: &[u32],
    u: u32,
) -> Result<(), AllocError>
    requires { TellsMade known.old made.old.items }
    ensures known { OnOk result (TellsMade known.new made.new.items) }
    ensures made { OnOk result
        (made.new.items ≡ with_each made.old.items (less_others named.now u)) }
{
    for v in named {
        if u != *v {
            let candidate = column_difference(alloc, u, *v);
            add(alloc, made, known, candidate)?;
        }
    }
    Ok(())
}

/// Adds each harvested term with both signs.
fn add_terms(
    alloc: Global,
    made: &mut Vec<Poly>,
    known: &mut BTreeSet<PolyKey>,
    harvested: &[Poly],
) -> Result<(), AllocError>
    requires { TellsMade known.old made.old.items }
    ensures known { OnOk result (TellsMade known.new made.new.items) }
    ensures made { OnOk result
        (made.new.items
        ≡ with_each made.old.items (flat_map (λ h. both_signs (Ok h)) harvested.now)) }
{
    for term in harvested {
        let poly = term.clone()?;
        add_both_signs(alloc, made, known, poly)?;
    }
    Ok(())
}

fn add_both_signs(
    alloc: Global,
    made: &mut Vec<Poly>,
    known: &mut BTreeSet<PolyKey>,
    poly: Poly,
) -> Result<(), AllocError>
    requires { TellsMade known.old made.old.items }
    ensures known { OnOk result (TellsMade known.new made.new.items) }
    ensures made { OnOk result (made.new.items ≡ with_each made.old.items (both_signs (Ok poly))) }
{
    let turned = scale(alloc, &poly, -1);
    add_new(alloc, made, known, poly)?;
    add(alloc, made, known, turned)
}

/// Adds a candidate that could be made.
fn add(
    alloc: Global,
    made: &mut Vec<Poly>,
    known: &mut BTreeSet<PolyKey>,
    candidate: Result<Poly, TermError>,
) -> Result<(), AllocError>
    requires { TellsMade known.old made.old.items }
    ensures known { OnOk result (TellsMade known.new made.new.items) }
    ensures made { (stated : Made) → Gives cause (λ p. p) candidate stated
        → OnOk result (made.new.items ≡ with_each made.old.items (stated ∷ [])) }
{
    match candidate {
        Ok(poly) => add_new(alloc, made, known, poly),
        Err(TermError::Memory) => Err(AllocError),
        Err(_lost) => Ok(()),
    }
}

/// Adds a direction, unless it is there already.
fn add_new(
    alloc: Global,
    made: &mut Vec<Poly>,
    known: &mut BTreeSet<PolyKey>,
    poly: Poly,
) -> Result<(), AllocError>
    requires { TellsMade known.old made.old.items }
    ensures known { OnOk result (TellsMade known.new made.new.items) }
    ensures made { OnOk result (made.new.items ≡ with_new poly_eq made.old.items poly) }
{
    let key = key_of(alloc, &poly)?;
    if known.insert(key)? {
        made.push(poly)?;
    }
    Ok(())
}

fn key_of(alloc: Global, poly: &Poly) -> Result<PolyKey, AllocError>
    ensures { IfOk result (λ key. key ≡ key_of poly.now) }
{
    let terms = Items::from_vec(Vec::from_slice(alloc, poly.terms())?);
    Ok((terms, poly.rest()))
}

fn column(alloc: Global, v: u32) -> Result<Poly, AllocError>
    ensures { IfOk result (λ p. p ≡ column_of (At v)) }
{
    match Poly::column(alloc, Col::At(v)) {
        Ok(poly) => Ok(poly),
        Err(_memory) => Err(AllocError),
    }
}

fn column_difference(alloc: Global, u: u32, v: u32) -> Result<Poly, TermError>
    ensures { Gives cause (λ p. p) result (column (At u) ⊟ column (At v)) }
{
    let first = Poly::column(alloc, Col::At(u))?;
    let second = Poly::column(alloc, Col::At(v))?;
    difference(alloc, &first, &second)
}
