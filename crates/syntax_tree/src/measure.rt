ghost use Rattle.std.specs.Prelude.{◌≡◌, ◌+◌, map, min};
ghost use Rattle.syntax_tree.specs.Cases.{joint_cases};
ghost use Rattle.syntax_tree.specs.Term.{term_of};
ghost use Rattle.syntax_tree.specs.WellFormed.{all_columns_below, args_fit, columns_below, cond_fits, joint_operators, operators_of, value_fits};
ghost use Rattle.syntax_tree.specs.Limits.{most_cases, most_operators};

use crate::cases::{count_cases, product};
use crate::core_expr::Core;
use crate::limits::{MOST_CASES, MOST_OPERATORS};

/// Whether each column of the expression is below `width`.
#[tactic(auto, using(crate::proofs::Terms::terms))]
pub fn has_columns_below(e: &Core, width: usize) -> bool
    ensures { result ≡ columns_below width (term_of e.now) }
{
    match e {
        Core::Lit(_) => true,
        Core::Col(col) => (*col as usize) < width,
        Core::Unary(_, inner) => has_columns_below(inner, width),
        Core::Binary(_, left, right) => {
            has_columns_below(left, width) && has_columns_below(right, width)
        }
    }
}

/// The operators of the expression. A number past `MOST_OPERATORS` counts as one more than that.
#[tactic(auto, using(crate::proofs::Terms::terms))]
pub fn count_operators(e: &Core) -> usize
    ensures { result ≡ min (operators_of (term_of e.now)) (most_operators + 1) }
{
    match e {
        Core::Lit(_) => 0,
        Core::Col(_) => 0,
        Core::Unary(_, inner) => (count_operators(inner) + 1).min(MOST_OPERATORS + 1),
        Core::Binary(_, left, right) => {
            (count_operators(left) + count_operators(right) + 1).min(MOST_OPERATORS + 1)
        }
    }
}

#[tactic(auto, using(crate::proofs::Counts::bounds))]
pub(crate) fn value_fits(e: &Core, width: usize) -> bool
    ensures { result ≡ value_fits width (term_of e.now) }
{
    has_columns_below(e, width)
        && count_operators(e) <= MOST_OPERATORS
        && count_cases(e).value <= MOST_CASES
}

#[tactic(auto, using(crate::proofs::Counts::bounds))]
pub(crate) fn cond_fits(e: &Core, width: usize) -> bool
    ensures { result ≡ cond_fits width (term_of e.now) }
{
    let cases = count_cases(e);
    has_columns_below(e, width)
        && count_operators(e) <= MOST_OPERATORS
        && cases.truth <= MOST_CASES
        && cases.falsity <= MOST_CASES
}

#[tactic(auto, using(crate::proofs::Counts::bounds))]
pub(crate) fn args_fit(args: &[Core], width: usize) -> bool
    ensures { result ≡ args_fit width (map term_of args.now) }
{
    all_columns_below(args, width)
        && joint_operators(args) <= MOST_OPERATORS
        && joint_cases(args) <= MOST_CASES
}

fn all_columns_below(args: &[Core], width: usize) -> bool
    ensures { result ≡ all_columns_below width (map term_of args.now) }
{
    for e in args {
        if !has_columns_below(e, width) {
            return false;
        }
    }
    true
}

fn joint_operators(args: &[Core]) -> usize
    ensures { result ≡ min (joint_operators (map term_of args.now)) (most_operators + 1) }
{
    let mut total = 0;
    for e in args {
        total = (total + count_operators(e)).min(MOST_OPERATORS + 1);
    }
    total
}

/// The cases of the values together. A number past `MOST_CASES` counts as one more than that.
pub fn joint_cases(args: &[Core]) -> usize
    ensures { result ≡ min (joint_cases (map term_of args.now)) (most_cases + 1) }
{
    let mut total = 1;
    for e in args {
        total = product(total, count_cases(e).value);
    }
    total
}
