ghost use Rattle.std.specs.Prelude.{◌≡◌};
ghost use Rattle.linear_terms.specs.Polynomial.{IsCanonical, coefficient_in};
ghost use Rattle.farkas_check.specs.Walk.{IsFirstBehind, is_after};

use linear_terms::Mono;

/// The coefficient of a monomial in terms that stand in print order; zero where it is not there.
/// Its own term is the last one that does not stand behind it.
#[tactic(auto, using(crate::proofs::OrderedTerms::ordered))]
pub(crate) fn coefficient(terms: &[(Mono, i128)], mono: &Mono) -> i128
    requires { IsCanonical terms.now }
    ensures { result ≡ coefficient_in terms.now mono.now }
{
    let place = first_behind(terms, &Some(*mono));
    if place == 0 {
        return 0;
    }
    let own = terms[place - 1];
    if own.0 == *mono { own.1 } else { 0 }
}

pub(crate) fn is_after(last: &Option<Mono>, mono: &Mono) -> bool
    ensures { result ≡ is_after last.now mono.now }
{
    match last {
        Some(last) => *last < *mono,
        None => true,
    }
}

/// A place whose term stands after a monomial, while the one before it does not.
pub(crate) fn first_behind(terms: &[(Mono, i128)], last: &Option<Mono>) -> usize
    ensures { IsFirstBehind terms.now last.now result }
{
    let mut low = 0;
    let mut high = terms.len();
    while low < high {
        let middle = low + (high - low) / 2;
        if is_after(last, &terms[middle].0) {
            high = middle;
        } else {
            low = middle + 1;
        }
    }
    low
}
