ghost use Rattle.std.specs.Prelude.{◌≡◌, ◌+◌, ◌-◌, ◌<◌, ◌≤◌, ◌^◌, ◌++◌, ℤ, List, All, map, take, length, IfOk, OnErr, OnOk, IsTrue};
ghost use Rattle.std.specs.List.{flat_map};
ghost use Rattle.transition_formula.specs.Composition.{losses_by};
ghost use Rattle.transition_formula.specs.Hiding.{entries_hidden, hiding, hidden_case, hidden, losses_in_hiding};
ghost use Rattle.transition_formula.specs.Meaning.{Holds};
ghost use Rattle.transition_formula.specs.Transition.{every_column_of, is_below};

use crate::compose::columns_below;
use crate::sequence::{PutIn, auxiliaries_from};
use crate::{Formula, FormulaError, Loss};
use items::Items;
use linear_terms::{Case, Poly};
use std::alloc::Global;

/// The formula whose entry columns are the first `n` alone: the others become auxiliaries, after
/// those of the case. It holds of the first numbers of each state that the formula held of, and of
/// no others where nothing was lost. Each loss is noted after those that are there. After an error
/// nothing is noted.
pub fn hidden(
    alloc: Global,
    f: &Formula,
    n: u32,
    losses: &mut Items<Loss>,
) -> Result<Formula, FormulaError>
    requires fewer { n ≤ f.now.from }
    requires few { All (λ case. case.aux + (f.now.from - n) + f.now.to < 2 ^ 32) f.now.cases }
    ensures exact { IfOk result (λ g. g ≡ hidden n f.now) }
    ensures noted { OnOk result (losses.new ≡ losses.old ++ losses_in_hiding n f.now) }
    ensures kept { OnErr result (losses.new ≡ losses.old) }
    ensures at_least { (before after : List ℤ)
        → IfOk result (λ g. Holds f.now before after → Holds g (take n before) after) }
    ensures at_most { (told after : List ℤ) → losses.new ≡ losses.old
        → IfOk result (λ g. Holds g told after
        → ((more : List ℤ) × Holds f.now (told ++ more) after)) }
{
    let mut lost = Items::new(alloc);
    let cases = hidden_cases(alloc, f, n, &mut lost)?;
    losses.append(lost)?;
    Ok(Formula {
        from: n,
        to: f.to,
        cases,
    })
}

fn hidden_cases(
    alloc: Global,
    f: &Formula,
    n: u32,
    losses: &mut Items<Loss>,
) -> Result<Items<Case>, FormulaError>
    requires fewer { n ≤ f.now.from }
    requires few { All (λ case. case.aux + (f.now.from - n) + f.now.to < 2 ^ 32) f.now.cases }
    ensures made { IfOk result (λ cases. cases ≡ map (hidden_case n f.now.from) f.now.cases) }
    ensures noted { OnOk result (losses.new ≡ losses.old ++ losses_in_hiding n f.now) }
{
    let mut cases = Items::new(alloc);
    for case in f.cases() {
        let made = hidden_case(alloc, case, f.from(), n, losses)?;
        cases.push(made)?;
    }
    Ok(cases)
}

fn hidden_case(
    alloc: Global,
    case: &Case,
    from: u32,
    n: u32,
    losses: &mut Items<Loss>,
) -> Result<Case, FormulaError>
    requires fewer { n ≤ from }
    requires covered { IsTrue (every_column_of (is_below from case.now.aux) case.now) }
    requires few { case.now.aux + (from - n) + length case.now.post < 2 ^ 32 }
    ensures exact { IfOk result (λ c. c ≡ hidden_case n from case.now) }
    ensures noted { OnOk result
        (losses.new ≡ losses.old ++ losses_by (hiding n from case.now) case.now) }
{
    let at = entries_hidden(alloc, n, from, case.aux)?;
    let aux = auxiliaries_from(alloc, 0, case.aux)?;
    let put_in = PutIn {
        at: at.as_slice(),
        aux: aux.as_slice(),
    };
    let mut rows = Items::new(alloc);
    put_in.rows(alloc, case.rows.as_slice(), &mut rows, losses)?;
    let mut post = Items::new(alloc);
    let count = put_in.posts(
        alloc,
        case.post.as_slice(),
        case.aux + (from - n),
        &mut post,
        losses,
    )?;
    Ok(Case {
        aux: count,
        rows,
        post,
    })
}

/// What is put in for the entry columns.
fn entries_hidden(alloc: Global, n: u32, from: u32, first: u32) -> Result<Items<Poly>, FormulaError>
    requires fewer { n ≤ from }
    requires few { first + (from - n) < 2 ^ 32 }
    ensures { IfOk result (λ made. made ≡ entries_hidden n from first) }
{
    let mut made = columns_below(alloc, n)?;
    made.append(auxiliaries_from(alloc, first, from - n)?)?;
    Ok(made)
}
