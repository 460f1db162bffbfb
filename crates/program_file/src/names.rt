//! The tensors that are declared so far, with their names in a set, so that a name is found at once.

use sam_base::Items;
use sam_model::Tensor;
use std::alloc::{AllocError, Global};
use std::collections::HashSet;
use std::marker::Model;

/// The tensors that are declared so far.
#[derive(Drop)]
pub(crate) struct Declared {
    tensors: Items<Tensor>,
    names: HashSet<Vec<u8>>,
}

impl Model for Declared {
    ghost use Rattle.std.specs.Prelude.{◌≡◌, ℕ, List};
    ghost use Rattle.sam_model.specs.declared.tensors.Tensor.{Tensor as SpecTensor};
    ghost use Rattle.sam_model.specs.Accepted.{is_taken};
    ghost use Rattle.program_file.specs.Names.{has_name};

    ghost Value = { List SpecTensor };

    ghost view = { λ d. d.tensors };

    ghost invariant = { λ d. (n : List ℕ) → has_name (λ v. v.items) d.names n ≡ is_taken n d.tensors };
}

impl Declared {
    ghost use Rattle.std.specs.Prelude.{◌≡◌, [], ◌∷◌, ◌++◌, IfOk};
    ghost use Rattle.sam_model.specs.Accepted.{is_taken};

    pub(crate) fn new(alloc: Global) -> Declared
        ensures { result ≡ [] }
    {
        Declared {
            tensors: Items::new(alloc),
            names: HashSet::new(alloc),
        }
    }

    /// Whether a tensor has this name.
    pub(crate) fn has(&self, name: &[u8]) -> bool
        ensures { result ≡ is_taken name.now self.now }
    {
        self.names.contains(name)
    }

    /// The tensors with one more.
    pub(crate) fn with(self, alloc: Global, tensor: Tensor) -> Result<Declared, AllocError>
        ensures { IfOk result (λ more. more ≡ self ++ tensor ∷ []) }
    {
        let Declared {
            mut tensors,
            mut names,
        } = self;
        names.insert(Vec::from_slice(alloc, tensor.name.as_bytes())?)?;
        tensors.push(tensor)?;
        Ok(Declared { tensors, names })
    }

    pub(crate) fn into_tensors(self) -> Items<Tensor>
        ensures { result ≡ self }
    {
        let Declared { tensors, names: _ } = self;
        tensors
    }
}
