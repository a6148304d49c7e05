ghost use Rattle.recurrence.specs.Law.{StarHolds, StarFits};

/// Star holds of every repetition of its body, and is a formula over the body's columns with at
/// most two cases, each of at most 64 rows and of at most one auxiliary more than there are
/// columns. It does nothing when it runs.
pub fn star_covers_chains()
    ensures holds { StarHolds }
    ensures fits { StarFits }
{}
