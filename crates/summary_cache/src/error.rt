use crate::refusal::Refusal;

/// Why a text is not analysed.
#[derive(Clone, Copy, Debug, PartialEq, Eq)]
pub enum SubmitError {
    /// The text has no program.
    Text(Refusal),
    /// The oracle refused a question.
    Refused,
    Memory,
}
