use linear_terms::{Col, Poly, TermError, add, difference, mul, scale};
use std::alloc::Global;
use syntax_tree::{Core, Op, Sign};

/// The polynomial of an expression of sums, differences, products and the signs `+` and `-`. Any
/// other expression counts as one of too great a degree.
pub(crate) fn side(alloc: Global, e: &Core) -> Result<Poly, TermError> {
    match e {
        Core::Lit(value) => Ok(Poly::constant(alloc, *value)),
        Core::Col(col) => Poly::column(alloc, Col::At(*col)),
        Core::Unary(sign, inner) => {
            let inner = side(alloc, inner)?;
            with_sign(alloc, *sign, inner)
        }
        Core::Binary(op, left, right) => {
            let left = side(alloc, left)?;
            let right = side(alloc, right)?;
            combination_of(alloc, *op, &left, &right)
        }
    }
}

fn with_sign(alloc: Global, sign: Sign, inner: Poly) -> Result<Poly, TermError> {
    match sign {
        Sign::Plus => Ok(inner),
        Sign::Minus => scale(alloc, &inner, -1),
        Sign::Not => Err(TermError::Degree),
    }
}

fn combination_of(alloc: Global, op: Op, left: &Poly, right: &Poly) -> Result<Poly, TermError> {
    match op {
        Op::Add => add(alloc, left, right),
        Op::Sub => difference(alloc, left, right),
        Op::Mul => mul(alloc, left, right),
        Op::Div | Op::Rem | Op::And | Op::Or => Err(TermError::Degree),
        Op::Lt | Op::Le | Op::Gt | Op::Ge | Op::Eq | Op::Ne => Err(TermError::Degree),
    }
}

/// The left side less the right one.
pub(crate) fn difference_of(alloc: Global, left: &Core, right: &Core) -> Result<Poly, TermError> {
    let left = side(alloc, left)?;
    let right = side(alloc, right)?;
    difference(alloc, &left, &right)
}

/// A column less an expression.
pub(crate) fn column_less(alloc: Global, col: u32, value: &Core) -> Result<Poly, TermError> {
    let left = Poly::column(alloc, Col::At(col))?;
    let right = side(alloc, value)?;
    difference(alloc, &left, &right)
}
