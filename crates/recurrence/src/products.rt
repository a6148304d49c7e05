ghost use Rattle.std.specs.Prelude.{◌≡◌, ◌≤◌, ◌++◌, [], length, IfOk, OnOk, option_to_list, if◌then◌else◌};
ghost use Rattle.std.specs.List.{filter, filter_map, flat_map, list_all};
ghost use Rattle.std.specs.Map.{keys_of};
ghost use Rattle.recurrence.specs.Products.{has_products, is_before, product_of, row_product, change_product, row_products, change_products, case_products, products_in};

use farkas_check::{Change, case_columns};
use items::Items;
use linear_terms::{Col, Mono, Poly, Row};
use polyhedra::{Movement, Vocabulary};
use std::alloc::{AllocError, Global};

/// The products of a body's rows and changes, in print order, each once; none under the rules
/// before the fourth.
pub(crate) fn products(
    alloc: Global,
    movement: &Movement,
    voc: &Vocabulary,
) -> Result<Items<Mono>, AllocError>
    ensures { IfOk result
        (λ made. made ≡ (if has_products voc.now.rule then products_in movement.now.cases else [])) }
{
    if has_products(voc.rule()) {
        products_in(alloc, movement.cases.as_slice())
    } else {
        Ok(Items::new(alloc))
    }
}

fn has_products(rule: u32) -> bool
    ensures { result ≡ has_products rule }
{
    3 < rule
}

fn products_in(alloc: Global, cases: &[Change]) -> Result<Items<Mono>, AllocError>
    ensures { IfOk result (λ made. made ≡ products_in cases.now) }
{
    let mut found = Items::new(alloc);
    for case in cases {
        add_of_rows(&mut found, case.rows.as_slice())?;
        add_of_changes(alloc, &mut found, case.terms.as_slice())?;
    }
    case_columns(alloc, &[], found.as_slice())
}

/// Adds the products of rows; the numbers beside them count for nothing.
fn add_of_rows(found: &mut Items<(Mono, i128)>, rows: &[Row]) -> Result<(), AllocError>
    ensures { OnOk result
        (keys_of found.new ≡ keys_of found.old ++ flat_map row_products rows.now) }
{
    for row in rows {
        add_of_row(found, row.poly.terms())?;
    }
    Ok(())
}

fn add_of_row(found: &mut Items<(Mono, i128)>, terms: &[(Mono, i128)]) -> Result<(), AllocError>
    ensures { OnOk result
        (keys_of found.new ≡ keys_of found.old ++ filter_map (λ t. row_product t.0) terms.now) }
{
    for (mono, _) in terms {
        add(found, row_product(mono))?;
    }
    Ok(())
}

/// Adds the products of changes.
fn add_of_changes(
    alloc: Global,
    found: &mut Items<(Mono, i128)>,
    changes: &[Poly],
) -> Result<(), AllocError>
    ensures { OnOk result
        (keys_of found.new ≡ keys_of found.old ++ flat_map change_products changes.now) }
{
    for change in changes {
        add_of_change(alloc, found, change.terms())?;
    }
    Ok(())
}

fn add_of_change(
    alloc: Global,
    found: &mut Items<(Mono, i128)>,
    terms: &[(Mono, i128)],
) -> Result<(), AllocError>
    ensures { OnOk result
        (keys_of found.new ≡ keys_of found.old ++ filter_map (λ t. change_product t.0) terms.now) }
{
    for (mono, _) in terms {
        add(found, change_product(alloc, mono)?)?;
    }
    Ok(())
}

fn add(found: &mut Items<(Mono, i128)>, product: Option<Mono>) -> Result<(), AllocError>
    ensures { OnOk result (keys_of found.new ≡ keys_of found.old ++ option_to_list product) }
{
    if let Some(mono) = product {
        found.push((mono, 1))?;
    }
    Ok(())
}

/// The product that a monomial of a row is: one of entry columns alone.
fn row_product(mono: &Mono) -> Option<Mono>
    ensures { result ≡ row_product mono.now }
{
    let columns = mono.columns();
    if are_before(columns) {
        product_of(columns)
    } else {
        None
    }
}

fn are_before(columns: &[Col]) -> bool
    ensures { result ≡ list_all is_before columns.now }
{
    columns.iter().all(|col| is_before(*col))
}

/// The product that is left of a monomial of a change without its auxiliaries.
fn change_product(alloc: Global, mono: &Mono) -> Result<Option<Mono>, AllocError>
    ensures { IfOk result (λ product. product ≡ change_product mono.now) }
{
    let columns = mono.columns();
    if count_before(columns) < 2 {
        return Ok(None);
    }
    let left = columns_before(alloc, columns)?;
    Ok(product_of(left.as_slice()))
}

fn count_before(columns: &[Col]) -> usize
    ensures { result ≡ length (filter is_before columns.now) }
{
    columns.iter().filter(|col| is_before(**col)).count()
}

fn columns_before(alloc: Global, columns: &[Col]) -> Result<Items<Col>, AllocError>
    ensures { IfOk result (λ left. left ≡ filter is_before columns.now) }
{
    let mut left = Items::new(alloc);
    for col in columns {
        if is_before(*col) {
            left.push(*col)?;
        }
    }
    Ok(left)
}

fn is_before(col: Col) -> bool
    ensures { result ≡ is_before col }
{
    matches!(col, Col::At(_))
}

/// The monomial of columns, where there are two and more.
fn product_of(columns: &[Col]) -> Option<Mono>
    requires { length columns.now ≤ 4 }
    ensures { result ≡ product_of columns.now }
{
    if 1 < columns.len() {
        Mono::new(columns)
    } else {
        None
    }
}
