//! Each law is the contract of a function that does nothing.
ghost use Rattle.row_products.specs.Laws.{ProductsAreTrue, ProductsKeepPoints};

/// Whole numbers that make rows true make their products true; so rows with their products have a
/// whole point exactly where the rows have one.
pub fn products_are_true()
    ensures truth { ProductsAreTrue }
    ensures points { ProductsKeepPoints }
{}
