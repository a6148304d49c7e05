ghost use Rattle.std.specs.Prelude.{◌≡◌, ◌≢◌, ◌<◌, ◌^◌, ◌++◌, [], ◌∷◌, Err, IfOk, OnOk};
ghost use Rattle.linear_terms.specs.declared.error.TermError.TheVariants.{Memory};
ghost use Rattle.transition_formula.specs.Loss.{error_losses, losses_of};
ghost use Rattle.leaf_cases.specs.Claims.{rows_of, case_with_value};

use items::Items;
use linear_terms::{Case, Col, Kind, Poly, Row, TermError};
use std::alloc::Global;
use transition_formula::{FormulaError, Loss, column, loss_of};

/// Notes an error of an operation; want of memory is an error here too.
fn note(error: TermError, losses: &mut Items<Loss>) -> Result<(), FormulaError>
    ensures noted { OnOk result (losses.new ≡ losses.old ++ error_losses error) }
    ensures told { OnOk result (error ≢ Memory) }
{
    match loss_of(error) {
        Some(loss) => {
            losses.push(loss)?;
            Ok(())
        }
        None => Err(FormulaError::Memory),
    }
}

/// Adds a row behind others, where it has a polynomial; one that is lost is noted.
pub(crate) fn push_claim(
    kind: Kind,
    poly: Result<Poly, TermError>,
    rows: &mut Items<Row>,
    losses: &mut Items<Loss>,
) -> Result<(), FormulaError>
    ensures made { OnOk result
        (rows.new ≡ rows.old ++ rows_of (record { kind = kind; poly = poly } ∷ [])) }
    ensures noted { OnOk result (losses.new ≡ losses.old ++ losses_of poly) }
    ensures told { OnOk result (poly ≢ Err Memory) }
{
    match poly {
        Ok(poly) => {
            rows.push(Row { poly, kind })?;
            Ok(())
        }
        Err(error) => note(error, losses),
    }
}

/// The case with this value alone; one that is lost is noted, and becomes a new auxiliary.
pub(crate) fn case_with_value(
    alloc: Global,
    case: &Case,
    value: Result<Poly, TermError>,
    losses: &mut Items<Loss>,
) -> Result<Case, FormulaError>
    requires { case.now.aux < 2 ^ 31 }
    ensures exact { IfOk result (λ c. c ≡ case_with_value case.now value) }
    ensures noted { OnOk result (losses.new ≡ losses.old ++ losses_of value) }
    ensures told { OnOk result (value ≢ Err Memory) }
{
    match value {
        Ok(poly) => with_value(alloc, case, case.aux, poly),
        Err(error) => {
            note(error, losses)?;
            let fresh = column(alloc, Col::Aux(case.aux))?;
            with_value(alloc, case, case.aux + 1, fresh)
        }
    }
}

/// The case over so many auxiliaries with this value alone.
pub(crate) fn with_value(
    alloc: Global,
    case: &Case,
    aux: u32,
    value: Poly,
) -> Result<Case, FormulaError>
    ensures { IfOk result (λ c. c ≡ record { aux = aux; rows = case.now.rows; post = value ∷ [] }) }
{
    let rows = case.rows.clone()?;
    let mut post = Items::new(alloc);
    post.push(value)?;
    Ok(Case { aux, rows, post })
}
