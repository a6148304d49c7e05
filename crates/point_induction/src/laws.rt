//! The law is the contract of a function that does nothing.
ghost use Rattle.point_induction.specs.Induction.{KeptAssertionsAreTrue};

/// Conditions at points and on what is returned are true in every execution from `main`, where they
/// are true as `main` begins and every passage keeps them. The same holds of whatever is said of
/// activations at points (`kept_sayings_are_true` of `proofs/Truth`, which quantifies over it and so
/// can be no contract).
pub fn kept_assertions_are_true()
    ensures { KeptAssertionsAreTrue }
{}
