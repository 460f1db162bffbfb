//! The laws of accepted programs. Each function has no body but its contract.

ghost use Rattle.expand.specs.Laws.{TermsDenote, TermsTell, NothingIsZero, ClosedTells, ProductsStay};

/// The terms of an accepted program mean what its top-level terms mean as they are written.
pub fn terms_denote()
    ensures denoted { TermsDenote }
    ensures told { TermsTell }
{}

/// A coordinate at which nothing is found denotes 0, so a result is what is found, closed over its dense levels.
pub fn results_close()
    ensures zero { NothingIsZero }
    ensures closed { ClosedTells }
{}

/// Top-level terms that are products of accesses and literals are the terms, so such a program means what it meant by them.
pub fn products_stay()
    ensures { ProductsStay }
{}
