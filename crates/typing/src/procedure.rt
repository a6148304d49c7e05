#![tactic(auto, using(crate::proofs::Items::items, crate::proofs::Outer::outer), unfolding(crate::specs::Texts::beginning))]

ghost use Rattle.std.specs.Prelude.{◌≡◌, ◌+◌, [], ◌∷◌, ◌++◌, IfOk, OnOk, length};
ghost use Rattle.syntax_tree.specs.SourceLine.{source_lines_of};
ghost use Rattle.typing.specs.Elaborated.{checks_in, proc_of, procs_of};
ghost use Rattle.typing.specs.Faults.{body_faults, least_of, node_faults, params_faults, procs_faults};
ghost use Rattle.typing.specs.LineFaults.{all_faults_in};
ghost use Rattle.typing.specs.Lines.{after_all, all_statements_of};
ghost use Rattle.typing.specs.Texts.{beginning, top, with_params};

use crate::checks::all_checks;
use crate::columns::body_columns;
use crate::elaborator::Elaborator;
use crate::env::LoopPlace;
use crate::error::{Limited, TypeError};
use crate::least::note_if;
use crate::sums::{small, sum};
use items::Items;
use std::alloc::AllocError;
use syntax_tree::{
    Column, Item, Line, MOST_NODES, MOST_SLOTS, Name, Param, Proc, Stmt, count_nodes,
};

fn proc(
    name: &Name,
    returns: bool,
    params: usize,
    columns: Items<Column>,
    body: Items<Stmt>,
) -> Result<Proc, AllocError>
    ensures { IfOk result
        (λ made. made
        ≡ record {
          name = name.now;
          returns = returns;
          params = params;
          columns = columns;
          body = body;
        }) }
{
    Ok(Proc {
        name: name.clone()?,
        returns,
        params: small(params)?,
        columns,
        body,
    })
}

/// What stands of a procedure in a text, where its body begins.
#[derive(Clone, Copy)]
struct ProcText<'a> {
    name: &'a Name,
    returns: bool,
    params: &'a [Param],
    lines: &'a [Line],
    /// The place of its closing brace.
    end: u32,
}

impl Elaborator {
    /// The procedures of a text with so many globals; the places of its assertions are added.
    pub(crate) fn procedures(
        &mut self,
        globals: u32,
        items: &[Item],
        checks: &mut Items<u32>,
    ) -> Result<Items<Proc>, AllocError>
        requires { self.old.env.scopes ≡ top self.old.env.scopes ∷ [] }
        ensures procs { IfOk result
            (λ procs. procs ≡ procs_of (top self.old.env.scopes) globals (length checks.old)
            items.now) }
        ensures checks { OnOk result (checks.new ≡ checks.old ++ checks_in items.now) }
        ensures least { OnOk result
            (self.new.least
            ≡ least_of self.old.least
            (procs_faults (top self.old.env.scopes) globals (length checks.old) items.now)) }
    {
        let mut procs = Items::new(self.alloc);
        for item in items {
            self.item(globals, item, checks, &mut procs)?;
        }
        Ok(procs)
    }

    fn item(
        &mut self,
        globals: u32,
        item: &Item,
        checks: &mut Items<u32>,
        procs: &mut Items<Proc>,
    ) -> Result<(), AllocError>
        requires { self.old.env.scopes ≡ top self.old.env.scopes ∷ [] }
        ensures scopes { OnOk result (self.new.env.scopes ≡ self.old.env.scopes) }
        ensures procs { OnOk result
            (procs.new ≡ procs.old ++ procs_of (top self.old.env.scopes) globals (length checks.old)
            (item.now ∷ [])) }
        ensures checks { OnOk result (checks.new ≡ checks.old ++ checks_in (item.now ∷ [])) }
        ensures least { OnOk result
            (self.new.least
            ≡ least_of self.old.least
            (procs_faults (top self.old.env.scopes) globals (length checks.old) (item.now ∷ []))) }
    {
        match item {
            Item::Global { .. } => Ok(()),
            Item::Proto { .. } => Ok(()),
            Item::Body {
                name,
                returns,
                params,
                lines,
                end,
                ..
            } => {
                let number = small(checks.len())?;
                let source = ProcText {
                    name,
                    returns: *returns,
                    params: params.as_slice(),
                    lines: lines.as_slice(),
                    end: *end,
                };
                let made = self.procedure(globals, number, source)?;
                procs.push(made)?;
                all_checks(lines.as_slice(), checks)
            }
        }
    }

    fn procedure(
        &mut self,
        globals: u32,
        number: u32,
        source: ProcText<'_>,
    ) -> Result<Proc, AllocError>
        requires { self.old.env.scopes ≡ top self.old.env.scopes ∷ [] }
        ensures scopes { OnOk result (self.new.env.scopes ≡ self.old.env.scopes) }
        ensures proc { IfOk result
            (λ made. made ≡ proc_of (top self.old.env.scopes) globals number
            source.entry.name.now source.entry.returns source.entry.params.now
            source.entry.lines.now) }
        ensures least { OnOk result
            (self.new.least
            ≡ least_of self.old.least
            (body_faults (top self.old.env.scopes) globals number source.entry.returns
            source.entry.params.now source.entry.lines.now source.entry.end)) }
    {
        let columns = body_columns(self.alloc, source.params, source.lines)?;
        self.begin(globals, number, source.returns, columns.len())?;
        self.params(source.params)?;
        let body = self.statements(source.lines, source.end)?;
        self.env.close();
        proc(
            source.name,
            source.returns,
            source.params.len(),
            columns,
            body,
        )
    }

    // The statements of a procedure's lines, of which there may be too many.
    fn statements(&mut self, lines: &[Line], end: u32) -> Result<Items<Stmt>, AllocError>
        ensures statements { IfOk result
            (λ body. body ≡ all_statements_of self.old.env (source_lines_of lines.now)) }
        ensures env { OnOk result
            (self.new.env ≡ after_all self.old.env (source_lines_of lines.now)) }
        ensures least { OnOk result
            (self.new.least
            ≡ least_of self.old.least
            (all_faults_in self.old.env (source_lines_of lines.now) ++ node_faults self.old.env
            (source_lines_of lines.now) end)) }
    {
        let mut body = Items::new(self.alloc);
        self.lines(lines, &mut body)?;
        let many = count_nodes(body.as_slice()) > MOST_NODES;
        note_if(&mut self.least, many, TypeError::Many(Limited::Nodes, end));
        Ok(body)
    }

    // What a procedure with so many columns begins with.
    fn begin(
        &mut self,
        globals: u32,
        number: u32,
        returns: bool,
        columns: usize,
    ) -> Result<(), AllocError>
        requires { self.old.env.scopes ≡ top self.old.env.scopes ∷ [] }
        ensures env { OnOk result
            (self.new.env ≡ beginning (top self.old.env.scopes) globals number returns columns) }
        ensures least { OnOk result (self.new.least ≡ self.old.least) }
    {
        self.env.scopes.open(self.alloc)?;
        self.env.next = globals;
        self.env.number = number;
        self.env.place = LoopPlace::Outside;
        self.env.returns = returns;
        let columns = small(columns)?;
        self.env.ret = sum(globals, columns)?;
        self.env.full = sum(globals, MOST_SLOTS as u32)?;
        Ok(())
    }

    fn params(&mut self, params: &[Param]) -> Result<(), AllocError>
        ensures env { OnOk result (self.new.env ≡ with_params self.old.env params.now) }
        ensures least { OnOk result
            (self.new.least ≡ least_of self.old.least (params_faults self.old.env params.now)) }
    {
        for param in params {
            let _ = self.declare(param.at, &param.name)?;
        }
        Ok(())
    }
}
