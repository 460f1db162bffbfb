//! The values of a term as blocks: arrays, products and the coefficient.

ghost use Rattle.std.specs.Prelude.{◌≡◌, ◌+◌, ◌-◌, ◌<◌, ◌^◌, suc, [], ◌∷◌, ◌++◌, length, IfOk, OnOk};
ghost use Rattle.std.specs.List.{range_with_len};
ghost use Rattle.custard_lower.specs.Drafts.{outputs_of};
ghost use Rattle.label_rules.specs.Plans.{PlanIsSmall};
ghost use Rattle.custard_lower.specs.Values.{full_label, array, arrays, product, multiplied, scaled, valued};

use crate::drafts::Draft;
use crate::nests::mask_number;
use crate::plans::NumberedPlan;
use graph::Kind;
use std::alloc::{AllocError, Global};
use stream_model::{Attr, Label};

/// A draft so far, and the output with the values.
#[derive(Drop)]
pub struct Valued {
    pub made: Draft,
    pub values: u64,
}

impl<'a> NumberedPlan<'a> {
    /// A label below all loops.
    fn full_label(&self, alloc: Global, attr: Attr) -> Result<Label, AllocError>
        requires { PlanIsSmall self.now.plan.now }
        ensures { IfOk result (λ label. label ≡ full_label self.now.trees self.now.plan.now attr) }
    {
        let loops = self.plan.on_left.len();
        let last = self.plan.asked(alloc, loops.saturating_sub(1))?;
        Ok(Label {
            tree: self.trees.bottom(loops as u8, mask_number(&last)),
            attr,
        })
    }

    /// The values of an access.
    fn array(&self, made: &mut Draft, references: &[u64], f: usize) -> Result<(), AllocError>
        requires small { PlanIsSmall self.now.plan.now }
        requires access { f < length self.now.plan.now.accesses }
        requires references { length references.now ≡ length self.now.plan.now.accesses }
        ensures made { OnOk result (made.new ≡ made.old ++ array self.now.trees self.now.plan.now references.now f ∷ []) }
        ensures count { OnOk result (outputs_of made.new ≡ outputs_of made.old + 1) }
        ensures room { OnOk result (outputs_of made.new < 2 ^ 64) }
    {
        let label = self.full_label(made.alloc(), Attr::FactorValue(f as u8))?;
        let kind = Kind::Array {
            tensor: self.plan.access(f).tensor,
        };
        made.emit(kind, &[references[f]], &[label])?;
        Ok(())
    }

    /// The values of each access, and the number of the first one's output.
    #[tactic(auto, using(crate::proofs::term::Blocks::blocks_more))]
    fn arrays(&self, made: &mut Draft, references: &[u64]) -> Result<u64, AllocError>
        requires small { PlanIsSmall self.now.plan.now }
        requires references { length references.now ≡ length self.now.plan.now.accesses }
        ensures made { OnOk result (made.new ≡ arrays self.now.trees self.now.plan.now made.old references.now) }
        ensures first { IfOk result (λ w. w ≡ outputs_of made.old) }
        ensures room { IfOk result (λ w. w + length self.now.plan.now.accesses < 2 ^ 64) }
    {
        let first = made.outputs();
        for f in 0..self.plan.accesses.len() {
            self.array(made, references, f)?;
        }
        Ok(first)
    }

    /// The product of the first k factors, times factor k.
    fn product(
        &self,
        made: &mut Draft,
        k: usize,
        values: u64,
        value: u64,
    ) -> Result<u64, AllocError>
        requires small { PlanIsSmall self.now.plan.now }
        requires access { k < length self.now.plan.now.accesses }
        ensures made { OnOk result (made.new ≡ made.old ++ product self.now.trees self.now.plan.now k values value ∷ []) }
        ensures first { IfOk result (λ w. w ≡ outputs_of made.old) }
    {
        let label = self.full_label(made.alloc(), Attr::Partial((k + 1) as u8))?;
        made.emit(Kind::Mul, &[values, value], &[label])
    }

    /// Multiplies the values of all accesses, whose outputs begin at w, one by one.
    #[tactic(auto, using(crate::proofs::term::Blocks::product_next, crate::proofs::term::Blocks::product_ends))]
    fn multiplied(&self, made: Draft, w: u64) -> Result<Valued, AllocError>
        requires small { PlanIsSmall self.now.plan.now }
        requires room { w + length self.now.plan.now.accesses < 2 ^ 64 }
        ensures { IfOk result (λ v. v ≡ multiplied self.now.trees self.now.plan.now (record { made = made; values = w }) (suc w) (range_with_len 1 (length self.now.plan.now.accesses - 1))) }
    {
        let mut valued = Valued { made, values: w };
        for k in 1..self.plan.accesses.len() {
            valued.values = self.product(&mut valued.made, k, valued.values, w + k as u64)?;
        }
        Ok(valued)
    }

    /// Multiplies the values with the coefficient, where there is one.
    fn scaled(&self, valued: Valued) -> Result<Valued, AllocError>
        requires { PlanIsSmall self.now.plan.now }
        ensures { IfOk result (λ v. v ≡ scaled self.now.trees self.now.plan.now self.now.plan.now.coefficient valued) }
    {
        let Some(c) = self.plan.coefficient else {
            return Ok(valued);
        };
        let Valued { mut made, values } = valued;
        let literal = self.full_label(made.alloc(), Attr::Literal(c))?;
        let whole = self.full_label(made.alloc(), Attr::Whole)?;
        let constant = made.emit(Kind::Const { value: c }, &[values], &[literal])?;
        let values = made.emit(Kind::Mul, &[values, constant], &[whole])?;
        Ok(Valued { made, values })
    }

    /// An array for each access, their product, and the coefficient.
    pub fn valued(&self, made: Draft, references: &[u64]) -> Result<Valued, AllocError>
        requires small { PlanIsSmall self.now.plan.now }
        requires references { length references.now ≡ length self.now.plan.now.accesses }
        ensures { IfOk result (λ v. v ≡ valued self.now.trees self.now.plan.now made references.now) }
    {
        let mut made = made;
        let first = self.arrays(&mut made, references)?;
        self.scaled(self.multiplied(made, first)?)
    }
}
