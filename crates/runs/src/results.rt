//! The result of a program, from what a run's writers leave; and its text.

ghost use Rattle.std.specs.Prelude.{◌≡◌, ◌⊎◌, List, true, Err, IfOk, length};
ghost use Rattle.std.specs.List.{list_all};
ghost use Rattle.sam_base.specs.declared.faults.Fault.TheVariants.{OutOfMemory};
ghost use Rattle.sam_model.specs.declared.tensors.Entries.{Entries};
ghost use Rattle.sam_model.specs.Accepted.{is_well_formed};
ghost use Rattle.sam_model.specs.Listing.{listing};
ghost use Rattle.sam_model.specs.Program.{accepted};
ghost use Rattle.sam_model.specs.ResultText.{listing_text};
ghost use Rattle.sam_model.specs.Statement.{found_entries};
ghost use Rattle.parts.specs.Answers.{ComesAlways};
ghost use Rattle.parts.specs.Parts.{gives};
ghost use Rattle.runs.specs.Results.{IsOf, as_listed, result_of};

use sam_base::{Fault, Name};
use sam_model::{Program, Tensor, Written};
use std::alloc::Global;
use tns_io::{CloseFault, close_result, result_text};

/// The result of a program, closed over its dense levels, from what is found.
pub fn program_result(alloc: Global, p: &Program, w: Written) -> Result<Written, Fault>
    requires accepted { accepted p.now ≡ true }
    requires of { IsOf p.now.result w }
    requires found { (entries : List Entries) × (listing w ≡ found_entries p.now entries) }
    ensures of { IfOk result (IsOf p.now.result) }
    ensures listed { (entries : List Entries) → listing w ≡ found_entries p.now entries →
        (as_listed result ≡ result_of p.now entries) ⊎ (result ≡ Err OutOfMemory) }
{
    match close_result(alloc, &p.result, w) {
        Ok(closed) => Ok(closed),
        Err(CloseFault::TooLarge) => Err(Fault::ResultTooLarge),
        Err(CloseFault::OutOfMemory) => Err(Fault::OutOfMemory),
    }
}

/// The text of a program's result: a line for each coordinate, with its number.
pub fn print_result(alloc: Global, declared: &Tensor, w: &Written) -> Result<Name, Fault>
    requires formed { is_well_formed declared.now ≡ true }
    requires of { IsOf declared.now w.now }
    ensures { ComesAlways (gives (Ok (listing_text declared.now.order (listing w.now)))) result }
{
    match result_text(alloc, declared, w) {
        Ok(text) => Ok(text),
        Err(_) => Err(Fault::OutOfMemory),
    }
}
