ghost use Rattle.std.specs.Prelude.{◌≡◌, ◌↔◌, IsTrue, IfOk};
ghost use Rattle.farkas_check.specs.Columns.{columns};
ghost use Rattle.farkas_check.specs.Meaning.{IsLimit, IsTight, IsTrueAnswer};
ghost use Rattle.farkas_check.specs.Tested.{outcome, passes, width_of, Passes};

use farkas_check::{Answer, Limit, Question};
use items::Items;
use linear_terms::{Mono, Row};
use std::alloc::{AllocError, Global};

/// Whether an answer passes the test of its question.
pub fn test(question: &Question, answer: &Answer) -> bool
    ensures exact { result ≡ passes question.now answer.now }
    ensures passing { IsTrue result ↔ Passes question.now answer.now }
    ensures sound { IsTrue result → IsTrueAnswer question.now answer.now }
    ensures tight { IsTrue result → ¬ IsLimit answer.now → IsTight question.now answer.now }
{
    farkas_check::test(question, answer)
}

/// The first sum or product of the test that leaves 128 bits.
pub fn test_width(question: &Question, answer: &Answer) -> Option<Limit>
    ensures { result ≡ width_of (outcome question.now answer.now) }
{
    farkas_check::test_width(question, answer)
}

/// The columns of a case of rows with one more list of terms.
pub fn case_columns(
    alloc: Global,
    rows: &[Row],
    terms: &[(Mono, i128)],
) -> Result<Items<Mono>, AllocError>
    ensures { IfOk result (λ made. made ≡ columns rows.now terms.now) }
{
    farkas_check::case_columns(alloc, rows, terms)
}
