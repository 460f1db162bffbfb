//! The terms so far joined with one term more as blocks, level by level.

ghost use Rattle.std.specs.Prelude.{◌≡◌, ◌+◌, ◌<◌, ◌≤◌, ◌^◌, suc, eqb, [], ◌∷◌, ◌++◌, length, IfOk, OnOk};
ghost use Rattle.stream_model.specs.declared.labels.Side.TheVariants.{Left, Right};
ghost use Rattle.custard_lower.specs.Drafts.{outputs_of};
ghost use Rattle.custard_lower.specs.Unions.{joined_label, fill, filled, flank, marked, payload, told_attr, union, joined_level, joined_levels, sum, joined_sides};

use crate::drafts::Draft;
use crate::reductions::Levels;
use graph::Kind;
use sam_base::Nums;
use std::alloc::AllocError;
use stream_model::{Attr, Label, Side, Tree};

/// One of the two that are joined, the terms so far or one term more: the tree of the first level, and the outputs with the
/// coordinates of each level and with the values.
#[derive(Drop)]
pub(crate) struct Part {
    pub tree: Tree,
    pub coordinates: Nums,
    pub values: u64,
}

/// A side of the join on a level: the outputs with its coordinates and, on the last level, with its values, and the tree of
/// these.
#[derive(Clone, Copy, Drop)]
pub(crate) struct Flank {
    pub coordinates: u64,
    pub values: u64,
    pub tree: Tree,
}

/// A draft so far, and the outputs with the coordinates of each level that is joined and with what the last union tells of
/// the left; what it tells of the right is on the next output.
#[derive(Drop)]
pub(crate) struct Front {
    pub made: Draft,
    pub coordinates: Nums,
    pub told: u64,
}

/// The joining of the terms before number `last` with this term, which has so many levels.
#[derive(Clone, Copy, Drop)]
struct Joining {
    last: u8,
    levels: usize,
}

impl Joining {
    fn joined_label(&self, depth: u8, attr: Attr) -> Label
        ensures { result ≡ joined_label self.now.last self.now.levels depth attr }
    {
        Label {
            tree: Tree::Joined {
                last: self.last,
                depth,
            },
            attr,
        }
    }

    /// Whether level k + 1 is the last, on which the values pass beside the coordinates.
    fn is_last(&self, k: usize) -> bool
        requires { k < self.now.levels }
        ensures { result ≡ eqb (suc k) self.now.levels }
    {
        self.levels == k + 1
    }

    /// Fills a side's fibers beneath level k, whose presence is told.
    fn fill(
        &self,
        made: &mut Draft,
        side: Side,
        k: usize,
        part: &Part,
        presence: u64,
    ) -> Result<u64, AllocError>
        requires few { self.now.levels ≤ 8 }
        requires level { k < self.now.levels }
        requires levels { length part.now.coordinates ≡ self.now.levels }
        ensures made { OnOk result (made.new ≡ made.old ++ fill self.now.last self.now.levels side k part.now presence ∷ []) }
        ensures first { IfOk result (λ w. w ≡ outputs_of made.old) }
        ensures room { IfOk result (λ w. w + 1 < 2 ^ 64) }
    {
        let tree = Tree::Beside {
            last: self.last,
            side,
            depth: (k + 1) as u8,
        };
        let coordinates = Label {
            tree,
            attr: Attr::Coordinate,
        };
        let values = Label {
            tree,
            attr: Attr::Value,
        };
        let ins = [presence, part.coordinates.get(k), part.values];
        if self.is_last(k) {
            made.emit(Kind::Fill { payloads: 1 }, &ins, &[coordinates, values])
        } else {
            made.emit(Kind::Fill { payloads: 0 }, &ins[..2], &[coordinates])
        }
    }

    /// A side on level k + 1: on the first level it passes as it is, and on the others its fibers are filled.
    fn flank(
        &self,
        made: &mut Draft,
        side: Side,
        k: usize,
        part: &Part,
        presence: u64,
    ) -> Result<Flank, AllocError>
        requires few { self.now.levels ≤ 8 }
        requires level { k < self.now.levels }
        requires levels { length part.now.coordinates ≡ self.now.levels }
        ensures made { OnOk result (made.new ≡ filled self.now.last self.now.levels side k part.now presence made.old) }
        ensures flank { IfOk result (λ f. f ≡ flank self.now.last self.now.levels side k part.now (outputs_of made.old)) }
    {
        if k == 0 {
            return Ok(Flank {
                coordinates: part.coordinates.get(0),
                values: part.values,
                tree: part.tree,
            });
        }
        let w = self.fill(made, side, k, part, presence)?;
        Ok(Flank {
            coordinates: w,
            values: w + 1,
            tree: Tree::Beside {
                last: self.last,
                side,
                depth: (k + 1) as u8,
            },
        })
    }

    /// What a union reads beside the coordinates of a side on level k + 1: its values on the last level, and above it a 1 for
    /// each coordinate, which tells that the side is present.
    fn payload(&self, made: &mut Draft, k: usize, flank: &Flank) -> Result<u64, AllocError>
        requires { k < self.now.levels }
        ensures made { OnOk result (made.new ≡ marked self.now.last self.now.levels k flank.now made.old) }
        ensures payload { IfOk result (λ w. w ≡ payload self.now.last self.now.levels k flank.now made.old) }
    {
        if self.is_last(k) {
            return Ok(flank.values);
        }
        let one = Label {
            tree: flank.tree,
            attr: Attr::Literal(1),
        };
        made.emit(Kind::Const { value: 1 }, &[flank.coordinates], &[one])
    }

    /// What the union on level k + 1 tells of a side.
    fn told_attr(&self, k: usize, side: Side) -> Attr
        requires { k < self.now.levels }
        ensures { result ≡ told_attr self.now.last self.now.levels k side }
    {
        if self.is_last(k) {
            Attr::SideValue(side)
        } else {
            Attr::Present(side)
        }
    }

    fn union(&self, made: &mut Draft, k: usize, ins: &[u64]) -> Result<u64, AllocError>
        requires few { self.now.levels ≤ 8 }
        requires level { k < self.now.levels }
        ensures made { OnOk result (made.new ≡ made.old ++ union self.now.last self.now.levels k ins.now ∷ []) }
        ensures first { IfOk result (λ w. w ≡ outputs_of made.old) }
        ensures room { IfOk result (λ w. w + 2 < 2 ^ 64) }
    {
        let depth = (k + 1) as u8;
        let labels = [
            self.joined_label(depth, Attr::Coordinate),
            self.joined_label(depth, self.told_attr(k, Side::Left)),
            self.joined_label(depth, self.told_attr(k, Side::Right)),
        ];
        made.emit(Kind::Union { left: 1, right: 1 }, ins, &labels)
    }

    /// Joins level k + 1.
    fn level(&self, left: &Part, right: &Part, k: usize, front: Front) -> Result<Front, AllocError>
        requires few { self.now.levels ≤ 8 }
        requires level { k < self.now.levels }
        requires left { length left.now.coordinates ≡ self.now.levels }
        requires right { length right.now.coordinates ≡ self.now.levels }
        requires told { front.told + 1 < 2 ^ 64 }
        ensures joined { IfOk result (λ more. more ≡ joined_level self.now.last self.now.levels left.now right.now k front) }
        ensures told { IfOk result (λ more. more.told + 1 < 2 ^ 64) }
    {
        let Front {
            mut made,
            mut coordinates,
            told,
        } = front;
        let a = self.flank(&mut made, Side::Left, k, left, told)?;
        let b = self.flank(&mut made, Side::Right, k, right, told + 1)?;
        let left_payload = self.payload(&mut made, k, &a)?;
        let right_payload = self.payload(&mut made, k, &b)?;
        let ins = [a.coordinates, left_payload, b.coordinates, right_payload];
        let w = self.union(&mut made, k, &ins)?;
        coordinates.push(w)?;
        Ok(Front {
            made,
            coordinates,
            told: w + 1,
        })
    }

    #[tactic(auto, using(crate::proofs::join::Joining::next_joined, crate::proofs::join::Joining::joined_counted))]
    /// Joins all levels.
    fn levels(&self, made: Draft, left: &Part, right: &Part) -> Result<Front, AllocError>
        requires few { self.now.levels ≤ 8 }
        requires left { length left.now.coordinates ≡ self.now.levels }
        requires right { length right.now.coordinates ≡ self.now.levels }
        ensures joined { IfOk result (λ front. front ≡ joined_levels self.now.last self.now.levels made left.now right.now self.now.levels) }
        ensures count { IfOk result (λ front. length front.coordinates ≡ self.now.levels) }
        ensures told { IfOk result (λ front. front.told + 1 < 2 ^ 64) }
    {
        let coordinates = Nums::new(made.alloc());
        let mut front = Front {
            made,
            coordinates,
            told: 0,
        };
        for k in 0..self.levels {
            front = self.level(left, right, k, front)?;
        }
        Ok(front)
    }

    /// The sum of the sides' values, or the difference.
    fn sum(&self, made: &mut Draft, minus: bool, a: u64, b: u64) -> Result<u64, AllocError>
        requires { self.now.levels ≤ 8 }
        ensures made { OnOk result (made.new ≡ made.old ++ sum self.now.last self.now.levels minus a b ∷ []) }
        ensures first { IfOk result (λ w. w ≡ outputs_of made.old) }
    {
        let kind = if minus { Kind::Sub } else { Kind::Add };
        let label = self.joined_label(self.levels as u8, Attr::Value);
        made.emit(kind, &[a, b], &[label])
    }
}

/// Joins the terms before number `last`, left, with it, right, after the blocks of both.
pub(crate) fn join(
    last: u8,
    minus: bool,
    made: Draft,
    left: &Part,
    right: &Part,
) -> Result<Levels, AllocError>
    requires few { length left.now.coordinates ≤ 8 }
    requires levels { length right.now.coordinates ≡ length left.now.coordinates }
    ensures joined { IfOk result (λ levels. levels ≡ joined_sides last minus made left.now right.now) }
    ensures count { IfOk result (λ levels. length levels.coordinates ≡ length left.now.coordinates) }
{
    let levels = left.coordinates.len();
    let joining = Joining { last, levels };
    let Front {
        mut made,
        coordinates,
        told,
    } = joining.levels(made, left, right)?;
    let values = if levels == 0 {
        joining.sum(&mut made, minus, left.values, right.values)?
    } else {
        joining.sum(&mut made, minus, told, told + 1)?
    };
    Ok(Levels {
        made,
        coordinates,
        values,
    })
}
