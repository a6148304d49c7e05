//! Rows of the hulls of loops' bodies: each line of standard input is a body, of which the outcome of
//! `facets` is printed.
#![tactic(auto)]

use anyhow::{Context, Result};
use facet_hull::{Facets, facets};
use farkas_check::Limit;
use items::Items;
use linear_terms::{Col, Poly};
use polynomial_texts::case;
use std::alloc::Global;
use std::io::{self, Read};
use transition_formula::Formula;

fn formula(alloc: Global, text: &str) -> Result<Formula> {
    let mut parts = text.splitn(3, ',');
    let from = parts
        .next()
        .context("a start")?
        .trim()
        .parse::<u32>()
        .ok()
        .context("a start")?;
    let to = parts
        .next()
        .context("an end")?
        .trim()
        .parse::<u32>()
        .ok()
        .context("an end")?;
    let rest = parts.next().context("cases")?;
    let mut cases = Items::new(alloc);
    if rest.trim() != "-" {
        for part in rest.split('/') {
            cases.push(case(alloc, part).ok().context("a case")?)?;
        }
    }
    Formula::new(from, to, cases).context("a formula")
}

fn print_poly(rt: &impl Print, poly: &Poly) -> Result<()> {
    for (mono, number) in poly.terms() {
        for col in mono.columns() {
            match col {
                Col::At(v) => print!(rt; "{number}*{v} ")?,
                Col::Aux(v) => print!(rt; "{number}*aux{v} ")?,
            }
        }
    }
    let rest = poly.rest();
    print!(rt; "{rest};")?;
    Ok(())
}

fn main(rt: HostRuntime) -> Result<()> {
    let alloc = rt.alloc();
    let mut bytes = Vec::new(alloc);
    rt.stdin().read_to_end(&mut bytes)?;
    let text = String::from_utf8(bytes).ok().context("a text")?;
    for line in text.as_str().lines() {
        let body = formula(alloc, line)?;
        match facets(alloc, &body)? {
            Facets::Normals(polys) => {
                print!(rt; "normals ")?;
                for poly in &polys {
                    print_poly(&rt, poly)?;
                }
                println!(rt; "")?;
            }
            Facets::Beyond => println!(rt; "beyond")?,
            Facets::Limit(Limit::Wide { left, right, times }) => println!(rt;
                "limit {left} {right} {times}"
            )?,
            Facets::Limit(Limit::Pivots) => println!(rt; "limit pivots")?,
        }
    }
    Ok(())
}
