ghost use Rattle.std.specs.Prelude.{◌++◌, [], codes};
ghost use Rattle.linear_terms.specs.Texts.{constant_text, mono_text, poly_text, rest_text, row_text, sign_text, size_text, term_text, terms_text};
ghost use Rattle.report.specs.Text.{column_text, name_at, point_text, more_values, value_text};
ghost use Rattle.report.specs.Appends.{Appends};

use crate::text::ReportText;
use farkas_check::Ratio;
use linear_terms::{Col, Kind, Mono, Poly, Row};
use std::alloc::AllocError;

impl ReportText {
    pub(crate) fn put_name(&mut self, names: &[ReportText], i: usize) -> Result<(), AllocError>
        ensures { Appends self.old self.new result (name_at names.now i) }
    {
        match names.get(i) {
            Some(name) => self.put(name.as_str()),
            None => Ok(()),
        }
    }

    fn put_column(&mut self, names: &[ReportText], col: Col) -> Result<(), AllocError>
        ensures { Appends self.old self.new result (column_text names.now col) }
    {
        match col {
            Col::At(number) => self.put_name(names, number as usize),
            Col::Aux(number) => {
                self.put("$")?;
                self.put_count(number as u128 + 1)
            }
        }
    }

    fn put_mono(&mut self, names: &[ReportText], columns: &[Col]) -> Result<(), AllocError>
        ensures { Appends self.old self.new result (mono_text (column_text names.now) columns.now) }
    {
        let Some((first, more)) = columns.split_first() else {
            return Ok(());
        };
        self.put_column(names, *first)?;
        for col in more {
            self.put("*")?;
            self.put_column(names, *col)?;
        }
        Ok(())
    }

    /// A number before columns; 1 is left out.
    fn put_size(&mut self, n: u128) -> Result<(), AllocError>
        ensures { Appends self.old self.new result (size_text n) }
    {
        if n != 1 {
            self.put_count(n)?;
            self.put("*")?;
        }
        Ok(())
    }

    fn put_sign(&mut self, first: bool, negative: bool) -> Result<(), AllocError>
        ensures { Appends self.old self.new result (sign_text first negative) }
    {
        match (first, negative) {
            (true, true) => self.put("-"),
            (true, false) => Ok(()),
            (false, true) => self.put(" - "),
            (false, false) => self.put(" + "),
        }
    }

    fn put_term(
        &mut self,
        names: &[ReportText],
        first: bool,
        columns: &[Col],
        number: i128,
    ) -> Result<(), AllocError>
        ensures { Appends self.old self.new result
            (term_text (column_text names.now) first (columns.now, number)) }
    {
        self.put_sign(first, number < 0)?;
        self.put_size(number.unsigned_abs())?;
        self.put_mono(names, columns)
    }

    fn put_constant(&mut self, first: bool, number: i128) -> Result<(), AllocError>
        ensures { Appends self.old self.new result (constant_text first number) }
    {
        self.put_sign(first, number < 0)?;
        self.put_count(number.unsigned_abs())
    }

    fn put_terms(&mut self, names: &[ReportText], terms: &[(Mono, i128)]) -> Result<(), AllocError>
        ensures { Appends self.old self.new result (terms_text (column_text names.now) terms.now) }
    {
        let Some(((mono, number), more)) = terms.split_first() else {
            return Ok(());
        };
        self.put_term(names, true, mono.columns(), *number)?;
        for (mono, number) in more {
            self.put_term(names, false, mono.columns(), *number)?;
        }
        Ok(())
    }

    fn put_rest(&mut self, terms: &[(Mono, i128)], rest: i128) -> Result<(), AllocError>
        ensures { Appends self.old self.new result (rest_text terms.now rest) }
    {
        if terms.is_empty() {
            self.put_constant(true, rest)
        } else if rest == 0 {
            Ok(())
        } else {
            self.put_constant(false, rest)
        }
    }

    pub(crate) fn put_poly(&mut self, names: &[ReportText], poly: &Poly) -> Result<(), AllocError>
        ensures { Appends self.old self.new result (poly_text (column_text names.now) poly.now) }
    {
        self.put_terms(names, poly.terms())?;
        self.put_rest(poly.terms(), poly.rest())
    }

    pub(crate) fn put_row(&mut self, names: &[ReportText], row: &Row) -> Result<(), AllocError>
        ensures { Appends self.old self.new result (row_text (column_text names.now) row.now) }
    {
        self.put_poly(names, &row.poly)?;
        self.put(match row.kind {
            Kind::AtMost => " <= 0",
            Kind::Equal => " = 0",
        })
    }

    fn put_value(
        &mut self,
        names: &[ReportText],
        mono: &Mono,
        value: &Ratio,
    ) -> Result<(), AllocError>
        ensures { Appends self.old self.new result (value_text names.now mono.now value.now) }
    {
        self.put_mono(names, mono.columns())?;
        self.put(" = ")?;
        self.put_ratio(value)
    }

    fn put_more_values(
        &mut self,
        names: &[ReportText],
        of: &[Mono],
        at: &[Ratio],
    ) -> Result<(), AllocError>
        ensures { Appends self.old self.new result (more_values names.now of.now at.now) }
    {
        for (mono, value) in of.iter().zip(at) {
            self.put(", ")?;
            self.put_value(names, mono, value)?;
        }
        Ok(())
    }

    /// A point: a number for each monomial.
    pub(crate) fn put_point(
        &mut self,
        names: &[ReportText],
        of: &[Mono],
        at: &[Ratio],
    ) -> Result<(), AllocError>
        ensures { Appends self.old self.new result (point_text names.now of.now at.now) }
    {
        match (of, at) {
            ([mono, more @ ..], [value, others @ ..]) => {
                self.put("point ")?;
                self.put_value(names, mono, value)?;
                self.put_more_values(names, more, others)
            }
            _ => self.put("point none"),
        }
    }
}
