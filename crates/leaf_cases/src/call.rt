ghost use Rattle.std.specs.Prelude.{◌≡◌, ◌+◌, ◌≤◌, ◌<◌, ◌^◌, ◌++◌, ℤ, List, Some, All, length, map, take, drop, IfOk, OnOk, OnErr, IsTrue};
ghost use Rattle.syntax_tree.specs.declared.limits.TheConstants.{MOST_OPERATORS};
ghost use Rattle.syntax_tree.specs.Term.{term_of};
ghost use Rattle.syntax_tree.specs.WellFormed.{all_columns_below, into_fits, joint_operators};
ghost use Rattle.execution.specs.Step.{values_of};
ghost use Rattle.transition_formula.specs.Meaning.{Holds};
ghost use Rattle.transition_formula.specs.Transition.{IsTransition};
ghost use Rattle.leaf_cases.specs.Edges.{arguments_of, awaited_count, call_of, cut, entering, leaving_case, losses_in_call, posts_with_value};
ghost use Rattle.leaf_cases.specs.Guard.{with_posts};
ghost use Rattle.leaf_cases.specs.Steps.{operand};

use crate::assignment::posts_with;
use crate::expression::{Sought, cases_of};
use crate::guard::{columns_below, formula};
use crate::listed::both;
use crate::step::operand;
use items::Items;
use linear_terms::{Case, Poly};
use std::alloc::Global;
use syntax_tree::Core;
use transition_formula::{Formula, FormulaError, Loss, seq};

/// A call: the arguments are made, the callee's formula follows, and what it leaves is put into the
/// caller's columns. What is lost is noted.
pub(crate) fn call(
    alloc: Global,
    widths: LeafWidths,
    args: &[Core],
    into: Option<u32>,
    callee: &Formula,
    losses: &mut Items<Loss>,
) -> Result<Formula, FormulaError>
    requires widths { widths.globals ≤ widths.columns }
    requires narrow { widths.columns ≤ 1000 }
    requires below { IsTrue (all_columns_below widths.columns (map term_of args.now)) }
    requires operators { joint_operators (map term_of args.now) ≤ MOST_OPERATORS }
    requires into { IsTrue (into_fits widths.columns into) }
    requires enters { callee.now.from ≡ widths.globals + length args.now }
    requires leaves { awaited_count widths.globals into ≤ callee.now.to }
    requires few { All (λ case. case.aux ≤ 64) callee.now.cases }
    ensures exact { IfOk result
        (λ f. f ≡ call_of widths.columns widths.globals (map term_of args.now) into callee.now) }
    ensures noted { OnOk result
        (losses.new ≡ losses.old ++ losses_in_call widths.columns widths.globals
        (map term_of args.now) into callee.now) }
{
    let values = arguments(alloc, args, losses)?;
    let count = callee.from() - widths.globals;
    let before = entering(alloc, widths, count, values.as_slice())?;
    let after = cut(alloc, awaited_count(widths.globals, into), callee)?;
    let made = seq(alloc, &before, &after, losses)?;
    let formula = leaving(alloc, widths, into, made.cases())?;
    Ok(formula)
}

/// What a call does before its callee begins: from the caller's state, whose first columns are the
/// globals, to the globals and the values of the arguments. What is lost is noted after the losses
/// that are there; after an error nothing is noted.
pub fn call_entry(
    alloc: Global,
    columns: u32,
    globals: u32,
    args: &[Core],
    losses: &mut Items<Loss>,
) -> Result<Formula, FormulaError>
    requires globals { globals ≤ columns }
    requires narrow { columns ≤ 1000 }
    requires few_arguments { length args.now ≤ 8 }
    requires below { IsTrue (all_columns_below columns (map term_of args.now)) }
    requires operators { joint_operators (map term_of args.now) ≤ MOST_OPERATORS }
    ensures exact { IfOk result
        (λ f. f ≡ entering columns globals (length args.now)
        (arguments_of (map term_of args.now)).cases) }
    ensures noted { OnOk result
        (losses.new ≡ losses.old ++ (arguments_of (map term_of args.now)).lost) }
    ensures kept { OnErr result (losses.new ≡ losses.old) }
    ensures few { IfOk result (λ f. All (λ case. case.aux < 2 ^ 31) f.cases) }
    ensures at_least { (state values : List ℤ)
        → IfOk result (λ f. length state ≡ columns → values_of (map term_of args.now) state
        ≡ Some values → Holds f state (take globals state ++ values)) }
{
    let mut lost = Items::new(alloc);
    let values = arguments(alloc, args, &mut lost)?;
    let widths = LeafWidths { columns, globals };
    let formula = entering(alloc, widths, args.len() as u32, values.as_slice())?;
    losses.append(lost)?;
    Ok(formula)
}

/// How many columns a state has, and how many of these are globals.
#[derive(Clone, Copy)]
pub(crate) struct LeafWidths {
    pub(crate) columns: u32,
    pub(crate) globals: u32,
}

/// The cases of the values of arguments, the first outermost.
fn arguments(
    alloc: Global,
    args: &[Core],
    losses: &mut Items<Loss>,
) -> Result<Items<Case>, FormulaError>
    requires { joint_operators (map term_of args.now) ≤ MOST_OPERATORS }
    ensures exact { IfOk result (λ made. made ≡ (arguments_of (map term_of args.now)).cases) }
    ensures noted { OnOk result
        (losses.new ≡ losses.old ++ (arguments_of (map term_of args.now)).lost) }
{
    let mut made = Items::new(alloc);
    made.push(Case {
        aux: 0,
        rows: Items::new(alloc),
        post: Items::new(alloc),
    })?;
    for e in args {
        let values = cases_of(alloc, e, Sought::Value, losses)?;
        made = both(alloc, made.as_slice(), values.as_slice())?;
    }
    Ok(made)
}

/// From the state to the globals and the arguments.
fn entering(
    alloc: Global,
    widths: LeafWidths,
    count: u32,
    cases: &[Case],
) -> Result<Formula, FormulaError>
    requires globals { widths.globals ≤ widths.columns }
    requires few { widths.globals + count < 2 ^ 32 }
    requires cases { IsTransition widths.columns count cases.now }
    ensures { IfOk result (λ f. f ≡ entering widths.columns widths.globals count cases.now) }
{
    let front = columns_below(alloc, widths.globals)?;
    let made = entering_cases(alloc, &front, cases)?;
    Ok(formula(widths.columns, widths.globals + count, made))
}

/// Each case with more posts before its own.
fn entering_cases(
    alloc: Global,
    front: &Items<Poly>,
    cases: &[Case],
) -> Result<Items<Case>, FormulaError>
    ensures { IfOk result
        (λ made. made ≡ map (λ case. with_posts (front.now ++ case.post) case) cases.now) }
{
    let mut made = Items::new(alloc);
    for case in cases {
        made.push(entering_case(front, case)?)?;
    }
    Ok(made)
}

fn entering_case(front: &Items<Poly>, case: &Case) -> Result<Case, FormulaError>
    ensures { IfOk result (λ c. c ≡ with_posts (front.now ++ case.now.post) case.now) }
{
    let rows = case.rows.clone()?;
    let mut post = front.clone()?;
    let own = case.post.clone()?;
    post.append(own)?;
    Ok(Case {
        aux: case.aux,
        rows,
        post,
    })
}

/// How many of its posts are asked of a callee: the globals, and the returned value where it is
/// awaited.
fn awaited_count(globals: u32, into: Option<u32>) -> u32
    requires { awaited_count globals into < 2 ^ 32 }
    ensures { result ≡ awaited_count globals into }
{
    match into {
        Some(_) => globals + 1,
        None => globals,
    }
}

/// The formula with so many posts of each case.
fn cut(alloc: Global, to: u32, f: &Formula) -> Result<Formula, FormulaError>
    requires { to ≤ f.now.to }
    ensures { IfOk result (λ g. g ≡ cut to f.now) }
{
    let made = cut_cases(alloc, to, f.cases())?;
    Ok(formula(f.from(), to, made))
}

/// Each case with so many posts.
fn cut_cases(alloc: Global, to: u32, cases: &[Case]) -> Result<Items<Case>, FormulaError>
    ensures { IfOk result
        (λ made. made ≡ map (λ case. with_posts (take to case.post) case) cases.now) }
{
    let mut made = Items::new(alloc);
    for case in cases {
        made.push(cut_case(alloc, to, case)?)?;
    }
    Ok(made)
}

fn cut_case(alloc: Global, to: u32, case: &Case) -> Result<Case, FormulaError>
    ensures { IfOk result (λ c. c ≡ with_posts (take to case.now.post) case.now) }
{
    let rows = case.rows.clone()?;
    let post = first_of(alloc, case.post.as_slice(), to as usize)?;
    Ok(Case {
        aux: case.aux,
        rows,
        post,
    })
}

/// Copies of the first posts.
fn first_of(alloc: Global, posts: &[Poly], count: usize) -> Result<Items<Poly>, FormulaError>
    ensures { IfOk result (λ made. made ≡ take count posts.now) }
{
    if posts.len() <= count {
        copies(alloc, posts)
    } else {
        copies(alloc, &posts[..count])
    }
}

/// Copies of the posts behind the first ones.
fn rest_of(alloc: Global, posts: &[Poly], count: usize) -> Result<Items<Poly>, FormulaError>
    ensures { IfOk result (λ made. made ≡ drop count posts.now) }
{
    if posts.len() <= count {
        Ok(Items::new(alloc))
    } else {
        copies(alloc, &posts[count..])
    }
}

fn copies(alloc: Global, posts: &[Poly]) -> Result<Items<Poly>, FormulaError>
    ensures { IfOk result (λ made. made ≡ posts.now) }
{
    let mut made = Items::new(alloc);
    for post in posts {
        made.push(post.clone()?)?;
    }
    Ok(made)
}

/// What a callee leaves is put into the caller's columns.
fn leaving(
    alloc: Global,
    widths: LeafWidths,
    into: Option<u32>,
    cases: &[Case],
) -> Result<Formula, FormulaError>
    requires globals { widths.globals ≤ widths.columns }
    requires cases { IsTransition widths.columns (awaited_count widths.globals into) cases.now }
    ensures { IfOk result
        (λ f. f ≡ record {
          from = widths.columns;
          to = widths.columns;
          cases = map
              (leaving_case widths.columns widths.globals into) cases.now;
        }) }
{
    let same = columns_below(alloc, widths.columns)?;
    let made = leaving_cases(alloc, widths.globals, same.as_slice(), into, cases)?;
    Ok(formula(widths.columns, widths.columns, made))
}

/// Each case with its first posts before the rest of the columns, and its last in the place that
/// awaits it.
fn leaving_cases(
    alloc: Global,
    globals: u32,
    same: &[Poly],
    into: Option<u32>,
    cases: &[Case],
) -> Result<Items<Case>, FormulaError>
    ensures { IfOk result
        (λ made. made
        ≡ map (λ case. with_posts
        (posts_with_value into (operand globals case) (take globals case.post ++ drop globals same.now))
        case) cases.now) }
{
    let mut made = Items::new(alloc);
    for case in cases {
        made.push(leaving_case(alloc, globals, same, into, case)?)?;
    }
    Ok(made)
}

fn leaving_case(
    alloc: Global,
    globals: u32,
    same: &[Poly],
    into: Option<u32>,
    case: &Case,
) -> Result<Case, FormulaError>
    ensures { IfOk result
        (λ c. c ≡ with_posts
        (posts_with_value into (operand globals case.now)
        (take globals case.now.post ++ drop globals same.now)) case.now) }
{
    let rows = case.rows.clone()?;
    let mut post = first_of(alloc, case.post.as_slice(), globals as usize)?;
    let rest = rest_of(alloc, same, globals as usize)?;
    post.append(rest)?;
    let zero = Poly::constant(alloc, 0);
    let value = operand(case, globals as usize, &zero).clone()?;
    Ok(Case {
        aux: case.aux,
        rows,
        post: posts_with_value(into, value, post),
    })
}

/// A value goes into the column that awaits it.
fn posts_with_value(into: Option<u32>, value: Poly, posts: Items<Poly>) -> Items<Poly>
    ensures { result ≡ posts_with_value into value posts }
{
    match into {
        Some(col) => posts_with(posts, col, value),
        None => posts,
    }
}
