ghost use Rattle.std.specs.Prelude.{◌≡◌, ◌<◌, ◌↔◌, ℕ, List};
ghost use Rattle.path_expr.specs.declared.link.Link.{Link};
ghost use Rattle.path_expr.specs.PathExpr.{InLanguage, Zero};
ghost use Rattle.path_expr.specs.Walks.{IsGraph, IsWalk};
ghost use Rattle.path_expr.specs.Elimination.{path_at};

/// The law of the stated elimination: the path expression that it gives for a node stands for
/// exactly the walks from the source to that node, and is Zero exactly where there is none. It does
/// nothing when it runs.
pub fn paths_are_walks()
    ensures language { (nodes : ℕ) (links : List Link) (source node : ℕ) → IsGraph nodes links →
        source < nodes → node < nodes → (word : List ℕ) →
        InLanguage (path_at nodes links source node) word ↔ IsWalk links source node word }
    ensures zero { (nodes : ℕ) (links : List Link) (source node : ℕ) → IsGraph nodes links →
        source < nodes → node < nodes →
        (path_at nodes links source node ≡ Zero)
        ↔ ((word : List ℕ) → ¬ IsWalk links source node word) }
{}
