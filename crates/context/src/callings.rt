ghost use Rattle.std.specs.Prelude.{◌≡◌, ◌+◌, ◌<◌, ◌≤◌, ◌∷◌, [], All, drop, length, map, IfOk};
ghost use Rattle.syntax_tree.specs.Term.{term_of};
ghost use Rattle.syntax_tree.specs.WellFormed.{IsWellFormed};
ghost use Rattle.syntax_tree.specs.declared.program.Proc.{Proc as Procedure};
ghost use Rattle.vocabularies.specs.Procs.{IsProcOf};
ghost use Rattle.flow_graph.specs.Plain.{statement_of_act};
ghost use Rattle.proc_summary.specs.Claims.{FitsFlow, FitsStop};
ghost use Rattle.proc_summary.specs.Subject.{own_graph};
ghost use Rattle.context.specs.Entries.{call_way, call_ways, calling_by, callings_in, widths_of};
ghost use Rattle.context.specs.Made.{AreArguments, AreWidths, IsCallFit, calling_of, callings_on, with_ways};
ghost use Rattle.context.specs.Callers.{IsCaller};

use crate::edges::{Edges, node_of};
use crate::stand::{Widths, call_leaf, widths_of};
use flow_graph::{Act, Edge, graph};
use path_expr::Link;
use proc_summary::{Flow, NodeFormula};
use std::alloc::Global;
use syntax_tree::{Core, Program};
use transition_formula::FormulaError;

/// The links, and behind them those of a procedure's calls, in the order of its edges.
pub(crate) fn with_calls(
    alloc: Global,
    program: &Program,
    number: u32,
    flow: &Flow,
    made: Edges,
) -> Result<Edges, FormulaError>
    requires formed { IsWellFormed program.now }
    requires procedure { number < length program.now.procs }
    requires flow { (p : Procedure) → IsProcOf program.now number p
        → FitsFlow program.now p flow.now }
    ensures { (p : Procedure) → IsProcOf program.now number p
        → IfOk result
        (λ all. all ≡ with_ways made
        (call_ways program.now.main number (widths_of program.now p)
        (callings_in (own_graph p).arcs) flow.now.calls)) }
{
    let graph = graph(alloc, program, number)?;
    let caller = Caller {
        main: program.main,
        number,
        widths: widths_of(program, number),
    };
    let edges = graph.edges.as_slice();
    let all = caller.with_callings(alloc, edges, flow.calls.as_slice(), made)?;
    Ok(all)
}

/// A procedure whose calls are made links, and `main`.
#[derive(Clone, Copy, Debug, PartialEq, Eq)]
struct Caller {
    main: u32,
    number: u32,
    widths: Widths,
}

impl Caller {
    /// The links, and behind them those of the calls among edges, which stand at these stops.
    fn with_callings(
        self,
        alloc: Global,
        edges: &[Edge],
        stops: &[NodeFormula],
        made: Edges,
    ) -> Result<Edges, FormulaError>
        requires caller { IsCaller self }
        requires calls { All (λ edge. IsCallFit self.widths.columns (statement_of_act edge.act))
            edges.now }
        requires stops { All (FitsStop self.widths.columns) stops.now }
        requires as_many { length (callings_on edges.now) ≡ length stops.now }
        ensures { IfOk result
            (λ all. all ≡ with_ways made
            (call_ways self.main self.number self.widths (callings_on edges.now) stops.now)) }
    {
        let mut all = made;
        let mut place = 0;
        for edge in edges {
            let (more, next) = self.with_edge(alloc, edge, stops, place, all)?;
            all = more;
            place = next;
        }
        Ok(all)
    }

    /// The links, and behind them that of an edge if it is a call, which stands at the stop with
    /// this number; and the number of the next call.
    fn with_edge(
        self,
        alloc: Global,
        edge: &Edge,
        stops: &[NodeFormula],
        place: usize,
        made: Edges,
    ) -> Result<(Edges, usize), FormulaError>
        requires caller { IsCaller self }
        requires call { IsCallFit self.widths.columns (statement_of_act edge.now.act) }
        requires stops { All (FitsStop self.widths.columns) stops.now }
        requires there { place + length (calling_by (statement_of_act edge.now.act))
            ≤ length stops.now }
        ensures made { IfOk result
            (λ both. both.0
            ≡ with_ways made
            (call_ways self.main self.number self.widths
            (calling_by (statement_of_act edge.now.act)) (drop place stops.now))) }
        ensures next { IfOk result
            (λ both. both.1 ≡ place + length (calling_by (statement_of_act edge.now.act))) }
    {
        match &edge.act {
            Act::Call { proc, args, .. } => {
                let stop = &stops[place];
                let all = self.with_calling(alloc, *proc, args.as_slice(), stop, made)?;
                Ok((all, place + 1))
            }
            _ => Ok((made, place)),
        }
    }

    /// The links, and behind them that of one call.
    fn with_calling(
        self,
        alloc: Global,
        callee: u32,
        args: &[Core],
        stop: &NodeFormula,
        made: Edges,
    ) -> Result<Edges, FormulaError>
        requires caller { IsCaller self }
        requires callee { callee ≤ 256 }
        requires arguments { AreArguments self.widths.columns (map term_of args.now) }
        requires stop { FitsStop self.widths.columns stop.now }
        ensures { IfOk result
            (λ all. all ≡ with_ways made
            (call_way self.main self.number self.widths (calling_of callee (map term_of args.now))
            stop.now ∷ [])) }
    {
        let Edges {
            mut links,
            mut leaves,
            mut losses,
        } = made;
        let from = node_of(self.main, self.number);
        let to = node_of(self.main, callee);
        links.push(Link { from, to })?;
        let leaf = call_leaf(alloc, self.widths, &stop.formula, args, &mut losses)?;
        leaves.push(leaf)?;
        Ok(Edges {
            links,
            leaves,
            losses,
        })
    }
}
