ghost use Rattle.std.specs.Prelude.{◌≡◌, slice_get};
ghost use Rattle.std.specs.Option.{option_eq};
ghost use Rattle.newton_rounds.specs.Members.{place_of};
ghost use Rattle.alike_groups.specs.Groups.{test_of};
ghost use Rattle.alike_groups.specs.Tests.{is_same_formula, stand_once};

use crate::group::KnownGroup;
use transition_formula::Formula;

/// Where a number stands.
pub(crate) fn place_of(number: u32, numbers: &[u32]) -> Option<usize>
    ensures { result ≡ place_of number numbers.now }
{
    for (place, other) in numbers.iter().enumerate() {
        if number == *other {
            return Some(place);
        }
    }
    None
}

/// Whether no number stands at two places.
pub(crate) fn stand_once(numbers: &[u32]) -> bool
    ensures { result ≡ stand_once numbers.now }
{
    for (place, number) in numbers.iter().enumerate() {
        if place_of(*number, &numbers[place + 1..]).is_some() {
            return false;
        }
    }
    true
}

/// Whether two procedures that members of two groups call stand at the same place of their groups,
/// or both outside with the same formula known of them.
#[tactic(auto, unfolding(crate::specs::Tests::is_alike_callee))]
pub(crate) fn is_alike_callee(
    proc: u32,
    next: u32,
    group: &KnownGroup<'_>,
    other: &KnownGroup<'_>,
) -> bool
    ensures { result ≡ test_of group.now other.now proc next }
{
    match (place_of(proc, group.procs), place_of(next, other.procs)) {
        (Some(place), Some(there)) => place == there,
        (None, None) => is_same_knowledge(group.known, proc, other.known, next),
        _ => false,
    }
}

fn is_same_knowledge(
    known: &[Option<Formula>],
    proc: u32,
    others: &[Option<Formula>],
    next: u32,
) -> bool
    ensures { result
        ≡ option_eq (option_eq is_same_formula) (slice_get known.now proc)
        (slice_get others.now next) }
{
    match (known.get(proc as usize), others.get(next as usize)) {
        (Some(f), Some(g)) => is_same_entry(f, g),
        (None, None) => true,
        _ => false,
    }
}

fn is_same_entry(f: &Option<Formula>, g: &Option<Formula>) -> bool
    ensures { result ≡ option_eq is_same_formula f.now g.now }
{
    match (f, g) {
        (Some(f), Some(g)) => is_same_formula(f, g),
        (None, None) => true,
        _ => false,
    }
}

fn is_same_formula(f: &Formula, g: &Formula) -> bool
    ensures { result ≡ is_same_formula f.now g.now }
{
    f.same(g)
}
