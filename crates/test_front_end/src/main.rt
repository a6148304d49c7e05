//! Worked rows for the way from the bytes of a text to its program. A row of standard input is a
//! line: its kind and a text, in which `~` and two hexadecimal digits stand for one byte. A kind
//! with a star has a text of many parts. What is printed stands in `stdout` as another
//! implementation of the rules gave it.
#![tactic(auto)]

mod expressions;
mod program_text;
mod programs;
mod rows;
mod tokens;
mod tree_text;
mod trees;
mod words;

use row_texts::Told;
use std::alloc::Global;
use std::io;

/// What a row of a kind comes to.
fn show_row(out: &mut Told, alloc: Global, kind: &str, text: &[u8]) {
    match kind {
        "length" => tokens::show_length(out, alloc, text),
        "tokens" => tokens::show_text(out, alloc, text),
        "tree" => trees::show_text(out, alloc, text),
        "program" => programs::show_text(out, alloc, text),
        "nodes" => programs::show_nodes(out, alloc, text),
        "value" | "cases" | "joint" => expressions::show_text(out, alloc, kind, text),
        "name" => expressions::show_name(out, alloc, text),
        _ => out.lose(),
    }
}

/// The first two words of what a text of many parts comes to.
fn show_short(out: &mut Told, alloc: Global, kind: &str, text: &str) {
    let mut parts = Told::new(alloc);
    rows::put_parts(&mut parts, text);
    let mut whole = Told::new(alloc);
    show_row(&mut whole, alloc, kind, parts.text().as_bytes());
    rows::show_first_words(out, whole.text().trim());
}

/// What a text of a kind comes to. Of a text of many parts the first two words are told.
fn show_given(out: &mut Told, alloc: Global, kind: &str, text: &str) {
    if let Some(kind) = kind.strip_suffix('*') {
        return show_short(out, alloc, kind, text);
    }
    match rows::bytes_of(alloc, text) {
        Some(bytes) => show_row(out, alloc, kind, &bytes),
        None => out.lose(),
    }
}

/// What a line comes to; a heading stays as it is.
fn show_line(out: &mut Told, alloc: Global, line: &str) {
    if line.starts_with('#') {
        return out.word(line);
    }
    match line.split_once(' ') {
        Some((kind, text)) => show_given(out, alloc, kind, text),
        None => out.lose(),
    }
}

fn call_laws() {
    tokens::laws();
    trees::laws();
    programs::laws();
}

fn main(rt: HostRuntime) -> io::Result<()> {
    call_laws();
    let text = io::read_to_string(rt.alloc(), rt.stdin())?;
    for line in text.as_str().lines() {
        let mut out = Told::new(rt.alloc());
        show_line(&mut out, rt.alloc(), line);
        println!(rt; "{}", out.text().trim())?;
    }
    Ok(())
}
