ghost use Rattle.std.specs.Prelude.{◌≡◌};
ghost use Rattle.std.specs.Cmp.Lexicographic.{pointwise};
ghost use Rattle.syntax_tree.specs.Term.{term_of};
ghost use Rattle.alike_groups.specs.Tests.{is_same_term};

use syntax_tree::Core;

/// Whether two expressions are equal.
#[tactic(auto, using(syntax_tree::proofs::Terms::terms))]
pub(crate) fn is_same_term(term: &Core, other: &Core) -> bool
    ensures { result ≡ is_same_term (term_of term.now) (term_of other.now) }
{
    match (term, other) {
        (Core::Lit(value), Core::Lit(given)) => value == given,
        (Core::Col(col), Core::Col(given)) => col == given,
        (Core::Unary(sign, inner), Core::Unary(given, next)) => {
            sign == given && is_same_term(inner, next)
        }
        (Core::Binary(op, left, right), Core::Binary(given, next, last)) => {
            op == given && is_same_term(left, next) && is_same_term(right, last)
        }
        _ => false,
    }
}

/// Whether two lists of expressions are equal.
pub(crate) fn are_same_terms(terms: &[Core], others: &[Core]) -> bool
    ensures { result
        ≡ pointwise (λ a b. is_same_term (term_of a) (term_of b)) terms.now others.now }
{
    if terms.len() != others.len() {
        return false;
    }
    for (place, term) in terms.iter().enumerate() {
        if !is_same_term(term, &others[place]) {
            return false;
        }
    }
    true
}
