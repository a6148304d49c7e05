ghost use Rattle.std.specs.Prelude.{◌≡◌, ◌≤◌, ℕ, List, ◌∷◌, [], ◌++◌, ◌↔◌, Bool, IfOk, IfErr, OnErr, OnOk, true, false};
ghost use Rattle.path_expr.specs.PathExpr.{PathExpr, Edge, Seq, Join, Star};
ghost use Rattle.path_expr.specs.Algebra.{Keeps};
ghost use Rattle.whole_numbers.specs.Counters.{Rose};

use std::alloc::Global;

/// What puts paths together: each operation makes an item of an edge or of other items.
///
/// An algebra says by its ghost members what its items mean. All that these hold of before a call,
/// they hold of after it. A call that is refused, and a copy, leave the operations that were
/// answered exactly as they were.
pub trait Algebra {
    type Item: Drop;

    type Fault: Drop;

    // The item fits the path expression.
    ghost fits: { Self → PathExpr → Self.Item → Type 0 };

    // The item leads from the one node to the other.
    ghost spans: { Self → Self.Item → ℕ → ℕ → Type 0 };

    // The edge with this number leads from the one node to the other.
    ghost ends: { Self → ℕ → ℕ → ℕ → Type 0 };

    // The fault is want of memory.
    ghost is_memory: { Self.Fault → Bool };

    // How many faults there were that are not want of memory.
    ghost faults: { Self → ℕ };

    // The operations that were answered, in their order.
    ghost made: { Self → List PathExpr → Type 0 };

    // The operation that was refused.
    ghost stopped: { Self → PathExpr → Type 0 };

    /// The item of an edge.
    fn edge(&mut self, alloc: Global, number: u32) -> Result<Self::Item, Self::Fault>
        requires { (from : ℕ) × (to : ℕ) × ends self.old number from to }
        ensures keeps { Keeps fits spans ends faults self.old self.new }
        ensures fits { IfOk result (λ item. fits self.new (Edge number) item) }
        ensures spans { (from to : ℕ) → ends self.old number from to
            → IfOk result (λ item. spans self.new item from to) }
        ensures made { (done : List PathExpr) → made self.old done
            → OnOk result (made self.new (done ++ Edge number ∷ [])) }
        ensures refused { (done : List PathExpr)
            → OnErr result (made self.old done ↔ made self.new done) }
        ensures stopped { IfErr result (λ fault. is_memory fault ≡ false
            → stopped self.new (Edge number)) }
        ensures cause { IfErr result (λ fault. is_memory fault ≡ false
            → Rose (faults self.old) (faults self.new)) };

    /// The item of one path and then another.
    fn seq(
        &mut self,
        alloc: Global,
        first: &Self::Item,
        second: &Self::Item,
    ) -> Result<Self::Item, Self::Fault>
        requires { (from : ℕ) × (through : ℕ) × (to : ℕ) × spans self.old first.now from through
            × spans self.old second.now through to }
        ensures keeps { Keeps fits spans ends faults self.old self.new }
        ensures fits { (p q : PathExpr) → fits self.old p first.now → fits self.old q second.now
            → IfOk result (λ item. fits self.new (Seq p q) item) }
        ensures spans { (from through to : ℕ) → spans self.old first.now from through
            → spans self.old second.now through to
            → IfOk result (λ item. spans self.new item from to) }
        ensures made { (p q : PathExpr) (done : List PathExpr) → fits self.old p first.now
            → fits self.old q second.now → made self.old done
            → OnOk result (made self.new (done ++ Seq p q ∷ [])) }
        ensures refused { (done : List PathExpr)
            → OnErr result (made self.old done ↔ made self.new done) }
        ensures stopped { (p q : PathExpr) → fits self.old p first.now → fits self.old q second.now
            → IfErr result (λ fault. is_memory fault ≡ false → stopped self.new (Seq p q)) }
        ensures cause { IfErr result (λ fault. is_memory fault ≡ false
            → Rose (faults self.old) (faults self.new)) };

    /// The item of either of two paths.
    fn join(
        &mut self,
        alloc: Global,
        left: &Self::Item,
        right: &Self::Item,
    ) -> Result<Self::Item, Self::Fault>
        requires { (from : ℕ) × (to : ℕ) × spans self.old left.now from to
            × spans self.old right.now from to }
        ensures keeps { Keeps fits spans ends faults self.old self.new }
        ensures fits { (p q : PathExpr) → fits self.old p left.now → fits self.old q right.now
            → IfOk result (λ item. fits self.new (Join p q) item) }
        ensures spans { (from to : ℕ) → spans self.old left.now from to
            → spans self.old right.now from to → IfOk result (λ item. spans self.new item from to) }
        ensures made { (p q : PathExpr) (done : List PathExpr) → fits self.old p left.now
            → fits self.old q right.now → made self.old done
            → OnOk result (made self.new (done ++ Join p q ∷ [])) }
        ensures refused { (done : List PathExpr)
            → OnErr result (made self.old done ↔ made self.new done) }
        ensures stopped { (p q : PathExpr) → fits self.old p left.now → fits self.old q right.now
            → IfErr result (λ fault. is_memory fault ≡ false → stopped self.new (Join p q)) }
        ensures cause { IfErr result (λ fault. is_memory fault ≡ false
            → Rose (faults self.old) (faults self.new)) };

    /// The item of any number of turns of a path from a node to itself.
    fn star(&mut self, alloc: Global, turn: &Self::Item) -> Result<Self::Item, Self::Fault>
        requires { (node : ℕ) × spans self.old turn.now node node }
        ensures keeps { Keeps fits spans ends faults self.old self.new }
        ensures fits { (p : PathExpr) → fits self.old p turn.now
            → IfOk result (λ item. fits self.new (Star p) item) }
        ensures spans { (node : ℕ) → spans self.old turn.now node node
            → IfOk result (λ item. spans self.new item node node) }
        ensures made { (p : PathExpr) (done : List PathExpr) → fits self.old p turn.now
            → made self.old done → OnOk result (made self.new (done ++ Star p ∷ [])) }
        ensures refused { (done : List PathExpr)
            → OnErr result (made self.old done ↔ made self.new done) }
        ensures stopped { (p : PathExpr) → fits self.old p turn.now
            → IfErr result (λ fault. is_memory fault ≡ false → stopped self.new (Star p)) }
        ensures cause { IfErr result (λ fault. is_memory fault ≡ false
            → Rose (faults self.old) (faults self.new)) };

    /// Another item of the same path. It is refused for want of memory alone.
    fn copy(&mut self, alloc: Global, item: &Self::Item) -> Result<Self::Item, Self::Fault>
        ensures keeps { Keeps fits spans ends faults self.old self.new }
        ensures fits { (p : PathExpr) → fits self.old p item.now
            → IfOk result (λ copy. fits self.new p copy) }
        ensures spans { (from to : ℕ) → spans self.old item.now from to
            → IfOk result (λ copy. spans self.new copy from to) }
        ensures made { (done : List PathExpr) → made self.old done ↔ made self.new done }
        ensures memory { IfErr result (λ fault. is_memory fault ≡ true) };
}
