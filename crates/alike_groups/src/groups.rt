ghost use Rattle.std.specs.Prelude.{◌≡◌, ◌↔◌, IsTrue};
ghost use Rattle.std.specs.Cmp.Lexicographic.{pointwise};
ghost use Rattle.alike_groups.specs.Groups.{AreAlike, test_of};
ghost use Rattle.alike_groups.specs.Tests.{are_alike_groups, is_alike_member};

use crate::callees::stand_once;
use crate::group::KnownGroup;
use crate::procs::is_alike_member;

/// Whether nothing in their summaries tells two groups apart. It takes no memory.
pub fn are_alike(group: &KnownGroup<'_>, other: &KnownGroup<'_>) -> bool
    ensures { IsTrue result ↔ AreAlike group.now other.now }
{
    are_alike_groups(group, other)
}

fn are_alike_groups(group: &KnownGroup<'_>, other: &KnownGroup<'_>) -> bool
    ensures { result
        ≡ are_alike_groups (test_of group.now other.now) group.now.program.now other.now.program.now
        group.now.procs.now other.now.procs.now group.now.known.now other.now.known.now }
{
    stand_once(group.procs)
        && stand_once(other.procs)
        && group.known.len() == group.program.procs.len()
        && other.known.len() == other.program.procs.len()
        && are_alike_members(group.procs, other.procs, group, other)
}

fn are_alike_members(
    procs: &[u32],
    others: &[u32],
    group: &KnownGroup<'_>,
    other: &KnownGroup<'_>,
) -> bool
    ensures { result
        ≡ pointwise (is_alike_member (test_of group.now other.now) group.now.program.now
        other.now.program.now) procs.now others.now }
{
    if procs.len() != others.len() {
        return false;
    }
    for (place, proc) in procs.iter().enumerate() {
        if !is_alike_member(*proc, others[place], group, other) {
            return false;
        }
    }
    true
}
