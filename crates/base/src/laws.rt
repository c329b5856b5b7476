//! Laws of whole numbers and of sums, as functions without code.
ghost use Rattle.base.specs.Stated.{ProductsAssociate, ProductsDistribute, ProductsKeepOrder, TotalsAppend, TotalsPermute};

/// What products of whole numbers obey.
pub fn laws_of_products()
    ensures associate { ProductsAssociate }
    ensures distribute { ProductsDistribute }
    ensures order { ProductsKeepOrder }
{}

/// What sums over lists obey.
pub fn laws_of_totals()
    ensures append { TotalsAppend }
    ensures permute { TotalsPermute }
{}
