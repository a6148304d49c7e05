use linear_terms::{Col, Kind, Mono, Poly, Row};
use std::hash::{FoldHasher, Hasher};

/// A number by which equal rows are found. Other rows may have the same one.
pub(crate) fn print_of(rows: &[Row]) -> u64 {
    let mut hasher = FoldHasher::default();
    for row in rows {
        add_poly(&mut hasher, row.kind, &row.poly);
    }
    hasher.finish()
}

fn add_poly(hasher: &mut FoldHasher, kind: Kind, poly: &Poly) {
    let terms = poly.terms();
    let own = (terms.len() as u64) << 1 | (kind == Kind::Equal) as u64;
    add_pair(hasher, own, poly.rest());
    for (mono, number) in terms {
        add_pair(hasher, mono_print(mono), *number);
    }
}

/// One number of its columns.
fn mono_print(mono: &Mono) -> u64 {
    let mut print: u64 = 0;
    for column in mono.columns() {
        print = (print << 16 | print >> 48) ^ column_print(*column);
    }
    print
}

fn column_print(column: Col) -> u64 {
    match column {
        Col::At(at) => (at as u64) << 1 | 1,
        Col::Aux(aux) => (aux as u64) << 1,
    }
}

fn add_pair(hasher: &mut FoldHasher, own: u64, number: i128) {
    hasher.write_i128(number ^ (own as i128) << 62);
}
