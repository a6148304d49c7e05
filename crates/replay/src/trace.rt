use execution::Event;
use items::Items;
use syntax_tree::Op;

/// Why a trace ends.
#[derive(Debug, Clone, Copy, PartialEq, Eq)]
pub enum TraceStop {
    /// `main` returned this value.
    Done(i128),
    /// The assertion with this number failed.
    Failed(u32),
    /// The condition of a guard is false.
    Guard,
    /// A number is divided by 0.
    Zero,
    /// No value is left where a column takes any number.
    Dry,
    /// An operator at these numbers leaves 128 bits.
    Wide { left: i128, right: i128, op: Op },
    /// All turns were used.
    Spent,
}

/// What an execution showed in order of its steps, how many steps it made, and why it made no more.
#[derive(Debug, PartialEq, Eq, Drop)]
pub struct Trace {
    pub events: Items<Event>,
    pub steps: u32,
    pub stop: TraceStop,
}
