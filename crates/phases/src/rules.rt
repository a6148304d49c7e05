ghost use Rattle.std.specs.Prelude.{◌≡◌};
ghost use Rattle.phases.specs.Rules.{has_facets, has_phases};

/// Whether a rule of analysis has phases: the fourth. Under it verdicts are asked with products of
/// rows too, and a recursion is told by its last round.
pub fn has_phases(rule: u32) -> bool
    ensures { result ≡ has_phases rule }
{
    rule == 4
}

/// Whether a rule of analysis has facets: the third. Under it each star has the normals of the exact
/// hull of its body's changes as further directions.
pub fn has_facets(rule: u32) -> bool
    ensures { result ≡ has_facets rule }
{
    rule == 3
}
