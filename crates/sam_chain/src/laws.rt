//! The law of chains, a function without a body: it holds of every chain.

ghost use Rattle.sam_chain.specs.Laws.{LastIsPrinted};

/// What the tensor of a chain's last step lists, each step over the entries of the declared tensors and of the results before it, has the
/// text that the chain denotes.
pub fn last_is_printed()
    ensures { LastIsPrinted }
{}
