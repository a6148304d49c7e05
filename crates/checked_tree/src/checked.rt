ghost use Rattle.std.specs.Prelude.{◌≡◌, ◌≤◌, length, IfOk};
ghost use Rattle.posing.specs.Follows.{Asks};
ghost use Rattle.polyhedra.specs.Laws.{HaveCanonicalRows};
ghost use Rattle.phases.specs.Repetition.{repetition};
ghost use Rattle.transition_formula.specs.Transition.{AreSolvable};
ghost use Rattle.checked_tree.specs.Evaluation.{leaf_formula, sequence_formula, join_formula};
ghost use Rattle.checked_tree.specs.Law.{IsEnd, IsFrom};
ghost use Rattle.checked_tree.specs.Tree.{tree_of, own_of, formula_of, Leaf, Seq, Join, Star};
ghost use Rattle.checked_tree.specs.Checked.{IsChecked, IsLeafStep, IsSeqStep, IsJoinStep, IsStarStep};
ghost use Rattle.checked_tree.specs.Grown.{result_map};
ghost use Rattle.checked_tree.specs.Growing.{IsNew, own_with};

use crate::mark::LogMark;
use crate::operations::{either, leaf, sequence};
use crate::step::{Node, TreeStep};
use crate::table::see_cases;
use farkas_check::Oracle;
use phases::repetition;
use polyhedra::{Log, Vocabulary, WorkError};
use std::alloc::{AllocError, Global};
use std::marker::Model;
use std::rc::Rc;
use transition_formula::Formula;

/// The formula that a link is given, between the vocabularies of its ends.
#[derive(Clone, Copy)]
pub(crate) struct LinkLeaf<'a> {
    /// The number of the link.
    pub number: u32,
    pub given: &'a Formula,
    pub from: &'a Rc<Vocabulary>,
    pub to: &'a Rc<Vocabulary>,
}

/// A tree, at each of whose steps the formula is what the stated operation comes to, from the
/// formulas below it, under the answers that the step keeps, each of which passes.
#[derive(Debug, Drop)]
pub struct Checked {
    root: Rc<TreeStep>,
}

impl Model for Checked {
    ghost use Rattle.checked_tree.specs.declared.step.TreeStep.{TreeStep};

    ghost Value = { TreeStep };

    ghost use Rattle.checked_tree.specs.contracts.step.TreeStep as e;
    ghost use Rattle.std.specs.Coded.{codes};

    ghost coded = { Prim.hlevel (codes, e.the_row.coded) };

    ghost use Rattle.checked_tree.specs.Tree.{tree_of};
    ghost use Rattle.checked_tree.specs.Checked.{IsChecked};

    ghost view = { λ c. c.root.value };

    ghost invariant = { λ c. IsChecked (tree_of c.root.value) };
}

impl Clone for Checked {
    ghost is_clone = { λ a b. b ≡ a };

    fn clone(&self) -> Result<Checked, AllocError> {
        let root = self.root.clone()?;
        Ok(Checked { root })
    }
}

impl Checked {
    /// The last step, which has the steps below it.
    pub fn root(&self) -> &TreeStep
        ensures is { result.now ≡ self.now }
        ensures checked { IsChecked (tree_of result.now) }
    {
        &self.root
    }

    /// What holds between the states at the tree's ends.
    pub fn formula(&self) -> &Formula
        ensures is { result.now ≡ formula_of (tree_of self.now) }
        ensures checked { IsChecked (tree_of self.now) }
    {
        &self.root.formula
    }

    /// The vocabulary of the state before.
    fn from(&self) -> &Rc<Vocabulary>
        ensures { result.now.value ≡ (own_of (tree_of self.now)).from }
    {
        &self.root.from
    }

    /// The vocabulary of the state after.
    fn to(&self) -> &Rc<Vocabulary>
        ensures { result.now.value ≡ (own_of (tree_of self.now)).to }
    {
        &self.root.to
    }

    /// The tree of a link, from the formula that it was given.
    pub(crate) fn leaf<O: Oracle>(
        alloc: Global,
        link: LinkLeaf,
        oracle: &mut O,
        log: &mut Log,
    ) -> Result<Checked, WorkError>
        requires between { IsFrom link.from.now.value link.to.now.value link.given.now }
        requires start { IsEnd link.from.now.value }
        requires end { IsEnd link.to.now.value }
        requires solvable { AreSolvable link.given.now.cases }
        requires canonical { HaveCanonicalRows link.given.now.cases }
        ensures follows { Asks O.asking oracle log
            (result_map (λ tree. formula_of (tree_of tree)) result)
            (leaf_formula link.entry.given.now link.entry.from.now.value link.entry.to.now.value) }
        ensures is { IfOk result
            (λ tree. tree_of tree
            ≡ Leaf link.entry.number link.entry.given.now (own_of (tree_of tree))) }
        ensures from_is { IfOk result
            (λ tree. (own_of (tree_of tree)).from ≡ link.entry.from.now.value) }
        ensures to_is { IfOk result (λ tree. (own_of (tree_of tree)).to ≡ link.entry.to.now.value) }
        ensures new { IfOk result (λ tree. IsNew log.old log.new (tree_of tree)) }
    {
        let mark = LogMark::of(log);
        let formula = leaf(alloc, link.given, link.from, link.to, oracle, log)?;
        see_cases(formula.cases());
        let tree = Checked::of_leaf(alloc, link, formula, mark, log)?;
        Ok(tree)
    }

    fn of_leaf(
        alloc: Global,
        link: LinkLeaf,
        formula: Formula,
        mark: LogMark,
        log: &Log,
    ) -> Result<Checked, AllocError>
        requires step { IsLeafStep link.given.now
            (own_with link.from.now.value link.to.now.value formula mark log.now) }
        requires notes { mark.notes ≤ length log.now.notes }
        requires answers { mark.answers ≤ length log.now.answers }
        ensures is { IfOk result
            (λ tree. tree_of tree
            ≡ Leaf link.entry.number link.entry.given.now
            (own_with link.entry.from.now.value link.entry.to.now.value formula mark log.now)) }
        ensures checked { IfOk result (λ tree. IsChecked (tree_of tree)) }
    {
        let step = TreeStep {
            from: link.from.clone()?,
            to: link.to.clone()?,
            node: Node::Leaf(link.number, link.given.clone()?),
            formula,
            log: mark.since(alloc, log)?,
        };
        let root = Rc::new(alloc, step)?;
        Ok(Checked { root })
    }

    /// The tree of one path and then another.
    pub(crate) fn seq<O: Oracle>(
        alloc: Global,
        first: &Checked,
        second: &Checked,
        oracle: &mut O,
        log: &mut Log,
    ) -> Result<Checked, WorkError>
        requires { (own_of (tree_of first.now)).to ≡ (own_of (tree_of second.now)).from }
        ensures follows { Asks O.asking oracle log
            (result_map (λ tree. formula_of (tree_of tree)) result)
            (sequence_formula (formula_of (tree_of first.now)) (formula_of (tree_of second.now))
            (own_of (tree_of first.now)).from (own_of (tree_of second.now)).to) }
        ensures is { IfOk result
            (λ tree. tree_of tree ≡ Seq (tree_of first.now) (tree_of second.now)
            (own_of (tree_of tree))) }
        ensures new { IfOk result (λ tree. IsNew log.old log.new (tree_of tree)) }
    {
        let mark = LogMark::of(log);
        let formula = Checked::sequence_of(alloc, first, second, oracle, log)?;
        let tree = Checked::of_seq(alloc, first, second, formula, mark, log)?;
        Ok(tree)
    }

    /// The formula of one tree's path and then another's.
    fn sequence_of<O: Oracle>(
        alloc: Global,
        first: &Checked,
        second: &Checked,
        oracle: &mut O,
        log: &mut Log,
    ) -> Result<Formula, WorkError>
        requires { (own_of (tree_of first.now)).to ≡ (own_of (tree_of second.now)).from }
        ensures follows { Asks O.asking oracle log result
            (sequence_formula (formula_of (tree_of first.now)) (formula_of (tree_of second.now))
            (own_of (tree_of first.now)).from (own_of (tree_of second.now)).to) }
        ensures canonical { IfOk result (λ f. HaveCanonicalRows f.cases) }
    {
        let from = first.from();
        let to = second.to();
        let one = first.formula();
        let other = second.formula();
        let formula = sequence(alloc, one, other, from, to, oracle, log)?;
        see_cases(formula.cases());
        Ok(formula)
    }

    fn of_seq(
        alloc: Global,
        first: &Checked,
        second: &Checked,
        formula: Formula,
        mark: LogMark,
        log: &Log,
    ) -> Result<Checked, AllocError>
        requires step { IsSeqStep (own_of (tree_of first.now)) (own_of (tree_of second.now))
            (own_with (own_of (tree_of first.now)).from (own_of (tree_of second.now)).to formula
            mark log.now) }
        requires notes { mark.notes ≤ length log.now.notes }
        requires answers { mark.answers ≤ length log.now.answers }
        ensures is { IfOk result
            (λ tree. tree_of tree ≡ Seq (tree_of first.now) (tree_of second.now)
            (own_with (own_of (tree_of first.now)).from (own_of (tree_of second.now)).to formula
            mark log.now)) }
        ensures checked { IfOk result (λ tree. IsChecked (tree_of tree)) }
    {
        let step = TreeStep {
            from: first.from().clone()?,
            to: second.to().clone()?,
            node: Node::Seq(first.root.clone()?, second.root.clone()?),
            formula,
            log: mark.since(alloc, log)?,
        };
        let root = Rc::new(alloc, step)?;
        Ok(Checked { root })
    }

    /// The tree of either of two paths between the same nodes.
    pub(crate) fn join<O: Oracle>(
        alloc: Global,
        left: &Checked,
        right: &Checked,
        oracle: &mut O,
        log: &mut Log,
    ) -> Result<Checked, WorkError>
        requires starts { (own_of (tree_of left.now)).from ≡ (own_of (tree_of right.now)).from }
        requires ends { (own_of (tree_of left.now)).to ≡ (own_of (tree_of right.now)).to }
        ensures follows { Asks O.asking oracle log
            (result_map (λ tree. formula_of (tree_of tree)) result)
            (join_formula (formula_of (tree_of left.now)) (formula_of (tree_of right.now))
            (own_of (tree_of left.now)).from (own_of (tree_of left.now)).to) }
        ensures is { IfOk result
            (λ tree. tree_of tree ≡ Join (tree_of left.now) (tree_of right.now)
            (own_of (tree_of tree))) }
        ensures new { IfOk result (λ tree. IsNew log.old log.new (tree_of tree)) }
    {
        let mark = LogMark::of(log);
        let formula = Checked::either_of(alloc, left, right, oracle, log)?;
        let tree = Checked::of_join(alloc, left, right, formula, mark, log)?;
        Ok(tree)
    }

    /// The formula of either of two trees' paths.
    fn either_of<O: Oracle>(
        alloc: Global,
        left: &Checked,
        right: &Checked,
        oracle: &mut O,
        log: &mut Log,
    ) -> Result<Formula, WorkError>
        requires starts { (own_of (tree_of left.now)).from ≡ (own_of (tree_of right.now)).from }
        requires ends { (own_of (tree_of left.now)).to ≡ (own_of (tree_of right.now)).to }
        ensures follows { Asks O.asking oracle log result
            (join_formula (formula_of (tree_of left.now)) (formula_of (tree_of right.now))
            (own_of (tree_of left.now)).from (own_of (tree_of left.now)).to) }
        ensures canonical { IfOk result (λ f. HaveCanonicalRows f.cases) }
    {
        let from = left.from();
        let to = left.to();
        let one = left.formula();
        let other = right.formula();
        let formula = either(alloc, one, other, from, to, oracle, log)?;
        see_cases(formula.cases());
        Ok(formula)
    }

    fn of_join(
        alloc: Global,
        left: &Checked,
        right: &Checked,
        formula: Formula,
        mark: LogMark,
        log: &Log,
    ) -> Result<Checked, AllocError>
        requires step { IsJoinStep (own_of (tree_of left.now)) (own_of (tree_of right.now))
            (own_with (own_of (tree_of left.now)).from (own_of (tree_of left.now)).to formula mark
            log.now) }
        requires notes { mark.notes ≤ length log.now.notes }
        requires answers { mark.answers ≤ length log.now.answers }
        ensures is { IfOk result
            (λ tree. tree_of tree ≡ Join (tree_of left.now) (tree_of right.now)
            (own_with (own_of (tree_of left.now)).from (own_of (tree_of left.now)).to formula mark
            log.now)) }
        ensures checked { IfOk result (λ tree. IsChecked (tree_of tree)) }
    {
        let step = TreeStep {
            from: left.from().clone()?,
            to: left.to().clone()?,
            node: Node::Join(left.root.clone()?, right.root.clone()?),
            formula,
            log: mark.since(alloc, log)?,
        };
        let root = Rc::new(alloc, step)?;
        Ok(Checked { root })
    }

    /// The tree of any number of turns.
    pub(crate) fn star<O: Oracle>(
        alloc: Global,
        turn: &Checked,
        oracle: &mut O,
        log: &mut Log,
    ) -> Result<Checked, WorkError>
        requires { (own_of (tree_of turn.now)).to ≡ (own_of (tree_of turn.now)).from }
        ensures follows { Asks O.asking oracle log
            (result_map (λ tree. formula_of (tree_of tree)) result)
            (repetition (formula_of (tree_of turn.now)) (own_of (tree_of turn.now)).from) }
        ensures is { IfOk result
            (λ tree. tree_of tree ≡ Star (tree_of turn.now) (own_of (tree_of tree))) }
        ensures new { IfOk result (λ tree. IsNew log.old log.new (tree_of tree)) }
    {
        let mark = LogMark::of(log);
        let formula = Checked::turns_of(alloc, turn, oracle, log)?;
        let tree = Checked::of_star(alloc, turn, formula, mark, log)?;
        Ok(tree)
    }

    /// The formula of any number of turns of a tree's path.
    fn turns_of<O: Oracle>(
        alloc: Global,
        turn: &Checked,
        oracle: &mut O,
        log: &mut Log,
    ) -> Result<Formula, WorkError>
        requires { (own_of (tree_of turn.now)).to ≡ (own_of (tree_of turn.now)).from }
        ensures follows { Asks O.asking oracle log result
            (repetition (formula_of (tree_of turn.now)) (own_of (tree_of turn.now)).from) }
        ensures canonical { IfOk result (λ f. HaveCanonicalRows f.cases) }
    {
        let voc = turn.from();
        let body = turn.formula();
        let formula = repetition(alloc, body, voc, oracle, log)?;
        see_cases(formula.cases());
        Ok(formula)
    }

    fn of_star(
        alloc: Global,
        turn: &Checked,
        formula: Formula,
        mark: LogMark,
        log: &Log,
    ) -> Result<Checked, AllocError>
        requires step { IsStarStep (own_of (tree_of turn.now))
            (own_with (own_of (tree_of turn.now)).from (own_of (tree_of turn.now)).from formula mark
            log.now) }
        requires notes { mark.notes ≤ length log.now.notes }
        requires answers { mark.answers ≤ length log.now.answers }
        ensures is { IfOk result
            (λ tree. tree_of tree
            ≡ Star (tree_of turn.now)
            (own_with (own_of (tree_of turn.now)).from (own_of (tree_of turn.now)).from formula mark
            log.now)) }
        ensures checked { IfOk result (λ tree. IsChecked (tree_of tree)) }
    {
        let step = TreeStep {
            from: turn.from().clone()?,
            to: turn.from().clone()?,
            node: Node::Star(turn.root.clone()?),
            formula,
            log: mark.since(alloc, log)?,
        };
        let root = Rc::new(alloc, step)?;
        Ok(Checked { root })
    }
}
