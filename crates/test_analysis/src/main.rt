//! Worked rows: the reports of whole programs. Between two texts of standard input stands a line of
//! three signs `=`. What is printed stands in `stdout` as a model of the rules gave it, but for the
//! numbers of a point that refutes: another searcher may find another one, and that it refutes is
//! proved.
#![tactic(auto)]

use analysis::{TextPlace, analyse};
use c_lexer::lex;
use c_parser::{ends_once, parse};
use finder::Finder;
use items::Items;
use posing::Log;
use report::print;
use std::alloc::Global;
use std::io;
use syntax_tree::Program;
use typing::elaborate;

/// The program of a text; none where it is refused, or memory is wanting.
fn program_of(alloc: Global, text: &str) -> Option<Program> {
    let bytes = text.as_bytes();
    let tokens = lex(alloc, bytes.get(..1_048_576).unwrap_or(bytes)).ok()?;
    if !ends_once(tokens.as_slice()) {
        return None;
    }
    let tree = parse(alloc, tokens.as_slice()).ok()?;
    elaborate(alloc, &tree, u32::try_from(text.len()).ok()?).ok()
}

/// Where a byte of a text stands.
fn place_of(text: &str, at: u32) -> TextPlace {
    let mut line = 1u32;
    let mut column = 1u32;
    for byte in text.as_bytes().iter().take(at as usize) {
        if *byte == b'\n' {
            line = line.saturating_add(1);
            column = 1;
        } else {
            column = column.saturating_add(1);
        }
    }
    TextPlace { at, line, column }
}

/// Where the assertions of a program stand.
fn places_of(alloc: Global, text: &str, program: &Program) -> Option<Items<TextPlace>> {
    let mut places = Items::new(alloc);
    for at in program.checks.as_slice() {
        places.push(place_of(text, *at)).ok()?;
    }
    Some(places)
}

/// The report of a text.
fn report_of(alloc: Global, text: &str) -> Option<String> {
    let program = program_of(alloc, text)?;
    if !program.is_well_formed() {
        return None;
    }
    let places = places_of(alloc, text, &program)?;
    let mut finder = Finder::new(alloc);
    let mut log = Log::new(alloc);
    let Ok(report) = analyse(alloc, &program, places.as_slice(), &mut finder, &mut log) else {
        return None;
    };
    let Ok(bytes) = print(alloc, &report) else {
        return None;
    };
    String::from_utf8(bytes).ok()
}

/// A line without the numbers of a point.
fn line_of(line: &str) -> &str {
    match line.find("point ") {
        Some(at) => line.get(..at + 5).unwrap_or(line),
        None => line,
    }
}

fn tell(rt: &HostRuntime, text: &str) -> io::Result<()> {
    match report_of(rt.alloc(), text) {
        Some(report) => {
            for line in report.lines() {
                println!(rt; "{}", line_of(line))?;
            }
        }
        None => println!(rt; "no row")?,
    }
    println!(rt; "===")
}

fn main(rt: HostRuntime) -> io::Result<()> {
    let text = io::read_to_string(rt.alloc(), rt.stdin())?;
    for row in text.as_str().split("\n===\n") {
        tell(&rt, row)?;
    }
    Ok(())
}
