ghost use Rattle.std.specs.Prelude.{◌≡◌, ◌++◌, ◌+◌, [], IfOk, IsUtf8, codes, decimal};
ghost use Rattle.std.specs.List.{flat_map};
ghost use Rattle.std.specs.Fmt.{signed_decimal};
ghost use Rattle.linear_terms.specs.Texts.{poly_text};
ghost use Rattle.report.specs.Costs.{at_most_text, bound_line, cost_lines, cost_text, costs_from, costs_text, factor_text, multipliers_line, numbers_text, proc_costs_text};
ghost use Rattle.report.specs.Text.{column_text, limit_text};
ghost use Rattle.report.specs.Appends.{Appends};

use crate::ProcBlock;
use crate::names::{column_names, letters};
use crate::text::ReportText;
use cost_bounds::Cost;
use linear_terms::Poly;
use std::alloc::{AllocError, Global};

impl ReportText {
    /// A factor before a name; 1 is left out.
    fn put_factor(&mut self, scale: i128) -> Result<(), AllocError>
        ensures { Appends self.old self.new result (factor_text scale) }
    {
        if scale != 1 {
            self.put_number(scale)?;
            self.put("*")?;
        }
        Ok(())
    }

    /// Numbers with commas between them.
    fn put_numbers(&mut self, numbers: &[i128]) -> Result<(), AllocError>
        ensures { Appends self.old self.new result (numbers_text numbers.now) }
    {
        let Some((first, more)) = numbers.split_first() else {
            return Ok(());
        };
        self.put_number(*first)?;
        for number in more {
            self.put(", ")?;
            self.put_number(*number)?;
        }
        Ok(())
    }

    #[tactic(auto, unfolding(crate::specs::Costs::at_most_text))]
    fn put_at_most(&mut self, names: &[ReportText], by: &Poly) -> Result<(), AllocError>
        ensures { Appends self.old self.new result (at_most_text names.now by.now) }
    {
        self.put("change <= ")?;
        self.put_poly(names, by)?;
        self.put("\n")
    }

    #[tactic(auto, unfolding(crate::specs::Costs::bound_line))]
    fn put_bound(&mut self, names: &[ReportText], scale: i128, by: &Poly) -> Result<(), AllocError>
        ensures { Appends self.old self.new result (bound_line names.now scale by.now) }
    {
        self.put("  ")?;
        self.put_factor(scale)?;
        self.put_at_most(names, by)
    }

    #[tactic(auto, unfolding(crate::specs::Costs::multipliers_line))]
    fn put_multipliers(&mut self, multipliers: &[i128]) -> Result<(), AllocError>
        ensures { Appends self.old self.new result (multipliers_line multipliers.now) }
    {
        self.put("  by ")?;
        self.put_numbers(multipliers)?;
        self.put("\n")
    }

    /// By how much a case changes the global.
    fn put_cost(&mut self, names: &[ReportText], cost: &Cost) -> Result<(), AllocError>
        ensures { Appends self.old self.new result (cost_lines names.now cost.now) }
    {
        match cost {
            Cost::Exact(by) => {
                self.put("  change = ")?;
                self.put_poly(names, by)?;
                self.put("\n")
            }
            Cost::Bound {
                scale,
                by,
                multipliers,
                ..
            } => {
                self.put_bound(names, *scale, by)?;
                self.put_multipliers(multipliers)
            }
            Cost::Unbounded(_) => self.put("  no bound\n"),
            Cost::Limit(limit) => {
                self.put("  ")?;
                self.put_limit(limit)?;
                self.put("\n")
            }
        }
    }

    /// A case with its number.
    fn put_case_cost(
        &mut self,
        names: &[ReportText],
        number: usize,
        cost: &Cost,
    ) -> Result<(), AllocError>
        ensures { Appends self.old self.new result (cost_text names.now number cost.now) }
    {
        self.put("case ")?;
        self.put_count(number as u128)?;
        self.put("\n")?;
        self.put_cost(names, cost)
    }

    fn put_costs(&mut self, names: &[ReportText], costs: &[Cost]) -> Result<(), AllocError>
        ensures { Appends self.old self.new result (costs_text names.now costs.now) }
    {
        if costs.is_empty() {
            return self.put("none\n");
        }
        for (i, cost) in costs.iter().enumerate() {
            self.put_case_cost(names, i + 1, cost)?;
        }
        Ok(())
    }
}

/// The text of a procedure and of by how much each case of its summary changes a global.
pub fn print_costs(alloc: Global, block: &ProcBlock, costs: &[Cost]) -> Result<Vec<u8>, AllocError>
    ensures bytes { IfOk result (λ text. text.items ≡ proc_costs_text block.now costs.now) }
    ensures utf8 { IfOk result (λ text. IsUtf8 text.items) }
{
    let names = column_names(alloc, block)?;
    let mut text = ReportText::new(alloc);
    text.put("procedure ")?;
    text.put(letters(&block.name))?;
    text.put("\n")?;
    text.put_costs(&names, costs)?;
    Ok(text.into_bytes())
}
