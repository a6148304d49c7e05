use crate::table::PointTable;
use items::Items;
use point_steps::PointStep;
use transition_formula::Formula;

/// The state of a point: a formula from no columns to those of its procedure at the point, and
/// behind them the globals and parameters as they were at the entry. It has a case.
#[derive(Drop)]
pub struct PointState {
    pub proc: u32,
    pub node: u32,
    pub formula: Formula,
}

/// A step, and the procedure and the point from which it leads.
#[derive(Drop)]
pub struct StepFrom {
    pub proc: u32,
    pub node: u32,
    pub step: PointStep,
}

/// What a round leaves: the table without the rows that fell, and the steps by which they were
/// judged, in the order of the points.
#[derive(Drop)]
pub struct PointRound {
    pub table: PointTable,
    pub steps: Items<StepFrom>,
}

/// Where rows stand.
#[derive(Clone, Copy)]
pub enum RowPlace {
    /// At a point of the procedure of that number, by its node.
    AtPoint { proc: u32, node: u32 },
    /// At the exit of the procedure of that number.
    AtExit { proc: u32 },
}

/// A row that fell: its place, and its number among the rows there, from 0.
#[derive(Clone, Copy)]
pub struct FallenRow {
    pub place: RowPlace,
    pub number: usize,
}
