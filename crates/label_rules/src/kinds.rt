//! The law of each kind of block.
//!
//! A block whose labels are allowed takes the streams of its inputs' labels, which fit it, and gives the streams of its
//! outputs' labels: over every accepted program and all entries of its tensors. Each function here has no body but its
//! contract.

ghost use Rattle.std.specs.Prelude.{ℕ};
ghost use Rattle.graph.specs.declared.graphs.Kind.TheVariants.{Root, Scan, Repeat, Cast, Drain, Intersect, Union, Array, Mul, Add, Sub, Const, SumScalar, SumVector, SumMatrix, DropValue, DropFiber, Fill, WriteLevel, WriteValue};
ghost use Rattle.label_rules.specs.Laws.{KeepsLabels};

/// The root gives every factor's reference before the first loop.
pub fn root_law()
    ensures { KeepsLabels Root }
{}

/// A scanner gives the coordinates of one factor beneath the prefixes that all factors let stand, with its references.
pub fn scan_law()
    ensures { (tensor : ℕ) (level : ℕ) → KeepsLabels (Scan tensor level) }
{}

/// A repeater gives the reference of a factor that lacks the loop for each coordinate of it.
pub fn repeat_law()
    ensures { KeepsLabels Repeat }
{}

/// Casts and drains take any label, and a cast gives it again at each output.
pub fn copy_laws()
    ensures cast { (outs : ℕ) → KeepsLabels (Cast outs) }
    ensures drain { KeepsLabels Drain }
{}

/// An intersecter of any two masks gives the coordinates of both, with the references of all their factors.
pub fn intersect_law()
    ensures { (left : ℕ) (right : ℕ) → KeepsLabels (Intersect left right) }
{}

/// An array gives the values of a factor.
pub fn array_law()
    ensures { (tensor : ℕ) → KeepsLabels (Array tensor) }
{}

/// A multiplier gives the product with one factor more, or with the coefficient.
pub fn product_law()
    ensures { KeepsLabels Mul }
{}

/// A constant stands beside all coordinates, and beside the values and products of factors.
pub fn constant_law()
    ensures { (value : ℕ) → KeepsLabels (Const value) }
{}

/// Reducers take a loop away, where none, one or two loops of the left follow it.
pub fn reducer_laws()
    ensures scalar { KeepsLabels SumScalar }
    ensures vector { KeepsLabels SumVector }
    ensures matrix { KeepsLabels SumMatrix }
{}

/// Droppers leave out what has no value, and the coordinates of a level whose fibers are empty.
pub fn dropper_laws()
    ensures value { KeepsLabels DropValue }
    ensures fiber { KeepsLabels DropFiber }
{}

/// A filler lays a side's fibers beneath the joined coordinates, whichever level the side is pruned from.
pub fn fill_law()
    ensures { (payloads : ℕ) → KeepsLabels (Fill payloads) }
{}

/// A union joins a level of two sides, and tells which side is there, or the values of both.
pub fn union_law()
    ensures { (left : ℕ) (right : ℕ) → KeepsLabels (Union left right) }
{}

/// Adders and subtracters join the values of two sides.
pub fn addition_laws()
    ensures add { KeepsLabels Add }
    ensures sub { KeepsLabels Sub }
{}

/// Writers take the levels and the values of the result.
pub fn writer_laws()
    ensures level { (level : ℕ) → KeepsLabels (WriteLevel level) }
    ensures value { KeepsLabels WriteValue }
{}
