//! The paths of graphs, as path expressions and as texts.
ghost use Rattle.std.specs.Prelude.{◌≡◌, ◌≤◌, false, IsSome, IfErr};
ghost use Rattle.whole_numbers.specs.Counters.{Rose};

use crate::links::{is_graph, links_of};
use path_expr::{
    Algebra, Cell, Link, Path, PathError, PlainPaths, ReachError, paths_are_walks, reach,
};
use row_texts::Told;
use std::alloc::Global;

// An algebra of expressions as texts. It refuses each call after so many, and keeps what the first
// of these was to make.
#[derive(Drop)]
struct Texts {
    left: u32,
    refused: Option<String>,
    faults: u64,
}

impl Texts {
    fn new(left: u32) -> Texts {
        Texts {
            left,
            refused: None,
            faults: 0,
        }
    }

    fn answer(&mut self, text: String) -> Result<String, bool>
        ensures refused { IfErr result (λ fault. (fault ≡ false) × IsSome self.new.refused
            × Rose self.old.faults self.new.faults) }
        ensures later { self.old.faults ≤ self.new.faults }
    {
        if self.left == 0 {
            self.refused = Some(text);
            self.faults = self.faults.saturating_add(1);
            return Err(false);
        }
        self.left -= 1;
        Ok(text)
    }
}

impl Algebra for Texts {
    type Item = String;
    // Whether memory is wanting.
    type Fault = bool;

    ghost fits = { λ _ _ _. Unit {0} };

    ghost spans = { λ _ _ _ _. Unit {0} };

    ghost ends = { λ _ _ _ _. Unit {0} };

    ghost is_memory = { λ fault. fault };

    ghost faults = { λ texts. texts.faults };

    ghost made = { λ _ _. Unit {0} };

    ghost stopped = { λ texts _. IsSome texts.refused };

    fn edge(&mut self, alloc: Global, number: u32) -> Result<String, bool> {
        let text = format!(in alloc; "{number}").map_err(|_| true)?;
        self.answer(text)
    }

    fn seq(&mut self, alloc: Global, first: &String, second: &String) -> Result<String, bool> {
        let text = format!(in alloc; "({first}{second})").map_err(|_| true)?;
        self.answer(text)
    }

    fn join(&mut self, alloc: Global, left: &String, right: &String) -> Result<String, bool> {
        let text = format!(in alloc; "({left}|{right})").map_err(|_| true)?;
        self.answer(text)
    }

    fn star(&mut self, alloc: Global, turn: &String) -> Result<String, bool> {
        let text = format!(in alloc; "{turn}*").map_err(|_| true)?;
        self.answer(text)
    }

    fn copy(&mut self, alloc: Global, item: &String) -> Result<String, bool> {
        format!(in alloc; "{item}").map_err(|_| true)
    }
}

fn show_cell(out: &mut Told, cell: &Cell<String>) {
    match cell {
        Cell::Zero => out.word("0"),
        Cell::One => out.word("1"),
        Cell::Item(text) => out.word(text.as_str()),
    }
    out.word(" ");
}

fn show_cells(out: &mut Told, cells: &[Cell<String>]) {
    for cell in cells {
        show_cell(out, cell);
    }
}

/// The texts of the nodes of a graph, or the call that was refused.
fn show_texts(out: &mut Told, texts: &mut Texts, links: &[Link], source: u32) {
    if !is_graph(4, links) || source >= 4 || links.len() > 9 {
        return out.lose();
    }
    match reach(out.alloc(), texts, 4, links, source) {
        Ok(cells) => show_cells(out, cells.as_slice()),
        Err(ReachError::Algebra(false)) => show_refusal(out, texts),
        Err(_) => out.lose(),
    }
}

fn show_refusal(out: &mut Told, texts: &Texts) {
    out.word("refused ");
    match &texts.refused {
        Some(refused) => out.word(refused.as_str()),
        None => out.lose(),
    }
    out.word(", ");
    out.number(i128::from(texts.faults));
}

/// A source and links of a graph of four nodes, and how many calls are answered.
pub(crate) fn show_reach(out: &mut Told, given: &str, calls: &str) {
    let calls = out.small_number_of(calls);
    let (source, links) = out.halves(given, ": ");
    let links = links_of(out, links);
    let source = out.small_number_of(source);
    let mut texts = Texts::new(calls);
    show_texts(out, &mut texts, links.as_slice(), source);
}

/// What a call made; none is no path.
fn path_of(out: &mut Told, made: Result<Path, PathError>) -> Path {
    match made {
        Ok(path) => path,
        Err(_) => {
            out.lose();
            Path::Zero
        }
    }
}

fn edge(out: &mut Told, number: u32) -> Path {
    let made = PlainPaths.edge(out.alloc(), number);
    path_of(out, made)
}

fn seq(out: &mut Told, first: &Path, second: &Path) -> Path {
    let made = PlainPaths.seq(out.alloc(), first, second);
    path_of(out, made)
}

fn join(out: &mut Told, left: &Path, right: &Path) -> Path {
    let made = PlainPaths.join(out.alloc(), left, right);
    path_of(out, made)
}

fn star(out: &mut Told, turn: &Path) -> Path {
    let made = PlainPaths.star(out.alloc(), turn);
    path_of(out, made)
}

fn copy(out: &mut Told, path: &Path) -> Path {
    let made = PlainPaths.copy(out.alloc(), path);
    path_of(out, made)
}

/// A loop's turns, and then the way out of it.
fn round_and_out(out: &mut Told) -> Path {
    let body = edge(out, 0);
    let turns = star(out, &body);
    let after = edge(out, 1);
    seq(out, &turns, &after)
}

/// Whether copies are equal, and others are not.
fn show_copies(out: &mut Told) {
    let round = round_and_out(out);
    let body = edge(out, 0);
    let either = join(out, &round, &body);
    let again = copy(out, &either);
    out.truth(again == either && again != round && Path::Zero != Path::One);
}

/// The paths into the head of a loop by link 0 and round its body by link 1.
fn head_paths(out: &mut Told) -> Path {
    let into = edge(out, 0);
    let body = edge(out, 1);
    let turns = star(out, &body);
    seq(out, &into, &turns)
}

/// The same paths, and out of the loop by link 2.
fn after_paths(out: &mut Told) -> Path {
    let head = head_paths(out);
    let after = edge(out, 2);
    seq(out, &head, &after)
}

/// Whether the nodes of such a graph have these paths; node 3 is never reached.
fn show_loop(out: &mut Told, links: &[Link]) {
    if !is_graph(4, links) || links.len() > 9 {
        return out.lose();
    }
    match reach(out.alloc(), &mut PlainPaths, 4, links, 0) {
        Ok(cells) => show_sameness(out, cells.as_slice()),
        Err(_) => out.lose(),
    }
}

fn show_sameness(out: &mut Told, cells: &[Cell<Path>]) {
    let head = head_paths(out);
    let after = after_paths(out);
    let wanted = [Cell::One, Cell::Item(head), Cell::Item(after), Cell::Zero];
    out.truth(cells == wanted.as_slice());
}

/// Links of a loop.
pub(crate) fn show_plain(out: &mut Told, given: &str) {
    let links = links_of(out, given);
    show_copies(out);
    out.word(" ");
    show_loop(out, links.as_slice());
}

pub(crate) fn laws() {
    paths_are_walks();
}
