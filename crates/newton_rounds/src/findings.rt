use crate::dropping::JudgedRow;
use farkas_check::Limit;
use items::Items;
use linear_terms::Row;
use posing::Witness;
use transition_formula::Formula;

/// What was found so far against a row: the first point, and the limits of questions.
#[derive(Drop)]
pub(crate) struct Findings {
    pub(crate) point: Option<Witness>,
    pub(crate) limits: Items<Limit>,
}

/// The candidates' rows with what refutes each, and the formula of each procedure by which its rows
/// are judged.
#[derive(Drop)]
pub(crate) struct Judgements {
    pub(crate) rows: Items<Items<JudgedRow>>,
    pub(crate) formulas: Items<Formula>,
}

/// What a round leaves: the candidates without the rows that it dropped, and the formulas that it
/// made of the procedures.
#[derive(Drop)]
pub(crate) struct RoundEnd {
    pub(crate) candidates: Items<Items<Row>>,
    pub(crate) formulas: Items<Formula>,
}
