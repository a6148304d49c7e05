//! How polynomials and rows are written where no names of columns are known: `x0` is an entry
//! column, `$1` the first auxiliary.
ghost use Rattle.std.specs.Prelude.{◌++◌, codes, false, Some};
ghost use Rattle.std.specs.List.{flat_map};
ghost use Rattle.linear_terms.specs.Texts.{plain_name, mono_text, sign_text, term_text, constant_text, terms_text, rest_text, poly_text, relation_text, row_text};

use crate::{Col, Kind, Mono, Poly, Row};
use std::fmt;

impl fmt::Display for Col {
    ghost output = { λ c. Some (plain_name c) };

    fn fmt<W: fmt::Write>(&self, f: &mut fmt::Formatter<W>) -> fmt::Result {
        match self {
            Col::At(number) => write!(f, "x{number}"),
            Col::Aux(number) => {
                let number = u64::from(*number) + 1;
                write!(f, "${number}")
            }
        }
    }
}

impl fmt::Display for Mono {
    ghost output = { λ m. Some (mono_text plain_name m) };

    fn fmt<W: fmt::Write>(&self, f: &mut fmt::Formatter<W>) -> fmt::Result {
        match self.columns() {
            [] => Ok(()),
            [first, more @ ..] => {
                let more = Factors(more);
                write!(f, "{first}{more}")
            }
        }
    }
}

/// Columns, each behind a `*`.
#[derive(Drop)]
struct Factors<'a>(&'a [Col]);

impl fmt::Display for Factors<'_> {
    ghost output = { λ m. Some (flat_map (λ d. codes "*" ++ plain_name d) m.0.now) };

    fn fmt<W: fmt::Write>(&self, f: &mut fmt::Formatter<W>) -> fmt::Result {
        for col in self.0 {
            write!(f, "*{col}")?;
        }
        Ok(())
    }
}

/// The sign of a term, which is the first or not.
#[derive(Drop)]
struct TermSign {
    first: bool,
    negative: bool,
}

impl fmt::Display for TermSign {
    ghost output = { λ s. Some (sign_text s.first s.negative) };

    fn fmt<W: fmt::Write>(&self, f: &mut fmt::Formatter<W>) -> fmt::Result {
        match (self.first, self.negative) {
            (true, true) => write!(f, "-"),
            (true, false) => Ok(()),
            (false, true) => write!(f, " - "),
            (false, false) => write!(f, " + "),
        }
    }
}

/// A term: whether it is the first, its columns and its number, which is not zero.
#[derive(Drop)]
struct SignedTerm<'a> {
    first: bool,
    mono: &'a Mono,
    number: i128,
}

impl fmt::Display for SignedTerm<'_> {
    ghost output = { λ t. Some (term_text plain_name t.first (t.mono.now, t.number)) };

    fn fmt<W: fmt::Write>(&self, f: &mut fmt::Formatter<W>) -> fmt::Result {
        let mono = self.mono;
        let size = self.number.unsigned_abs();
        let sign = TermSign {
            first: self.first,
            negative: self.number < 0,
        };
        if size == 1 {
            write!(f, "{sign}{mono}")
        } else {
            write!(f, "{sign}{size}*{mono}")
        }
    }
}

/// A constant behind terms, or alone.
#[derive(Drop)]
struct Constant {
    first: bool,
    number: i128,
}

impl fmt::Display for Constant {
    ghost output = { λ t. Some (constant_text t.first t.number) };

    fn fmt<W: fmt::Write>(&self, f: &mut fmt::Formatter<W>) -> fmt::Result {
        let size = self.number.unsigned_abs();
        let sign = TermSign {
            first: self.first,
            negative: self.number < 0,
        };
        write!(f, "{sign}{size}")
    }
}

/// Terms behind the first.
#[derive(Drop)]
struct Terms<'a>(&'a [(Mono, i128)]);

impl fmt::Display for Terms<'_> {
    ghost output = { λ ts. Some (flat_map (term_text plain_name false) ts.0.now) };

    fn fmt<W: fmt::Write>(&self, f: &mut fmt::Formatter<W>) -> fmt::Result {
        for (mono, number) in self.0 {
            let term = SignedTerm {
                first: false,
                mono,
                number: *number,
            };
            write!(f, "{term}")?;
        }
        Ok(())
    }
}

/// All terms of a polynomial.
#[derive(Drop)]
struct Sum<'a>(&'a [(Mono, i128)]);

impl fmt::Display for Sum<'_> {
    ghost output = { λ s. Some (terms_text plain_name s.0.now) };

    fn fmt<W: fmt::Write>(&self, f: &mut fmt::Formatter<W>) -> fmt::Result {
        match self.0 {
            [] => Ok(()),
            [(mono, number), more @ ..] => {
                let term = SignedTerm {
                    first: true,
                    mono,
                    number: *number,
                };
                let more = Terms(more);
                write!(f, "{term}{more}")
            }
        }
    }
}

/// The constant of a polynomial: alone, or behind its terms, where a zero is left out.
#[derive(Drop)]
struct LastConstant<'a> {
    terms: &'a [(Mono, i128)],
    number: i128,
}

impl fmt::Display for LastConstant<'_> {
    ghost output = { λ r. Some (rest_text r.terms.now r.number) };

    fn fmt<W: fmt::Write>(&self, f: &mut fmt::Formatter<W>) -> fmt::Result {
        let first = match self.terms {
            [] => true,
            [_, ..] if self.number == 0 => return Ok(()),
            [_, ..] => false,
        };
        let constant = Constant {
            first,
            number: self.number,
        };
        write!(f, "{constant}")
    }
}

/// Terms in print order and then the constant, joined by ` + ` and ` - `.
impl fmt::Display for Poly {
    ghost output = { λ p. Some (poly_text plain_name p) };

    fn fmt<W: fmt::Write>(&self, f: &mut fmt::Formatter<W>) -> fmt::Result {
        let terms = self.terms();
        let sum = Sum(terms);
        let rest = LastConstant {
            terms,
            number: self.rest(),
        };
        write!(f, "{sum}{rest}")
    }
}

/// What a row says of its polynomial.
#[derive(Drop)]
struct RowRelation(Kind);

impl fmt::Display for RowRelation {
    ghost output = { λ r. Some (relation_text r.0) };

    fn fmt<W: fmt::Write>(&self, f: &mut fmt::Formatter<W>) -> fmt::Result {
        match self.0 {
            Kind::AtMost => write!(f, " <= 0"),
            Kind::Equal => write!(f, " = 0"),
        }
    }
}

impl fmt::Display for Row {
    ghost output = { λ r. Some (row_text plain_name r) };

    fn fmt<W: fmt::Write>(&self, f: &mut fmt::Formatter<W>) -> fmt::Result {
        let poly = &self.poly;
        let relation = RowRelation(self.kind);
        write!(f, "{poly}{relation}")
    }
}
