//! A program's terms, as the rules of labels ask of them.

ghost use Rattle.std.specs.Prelude.{◌≡◌, ◌<◌, ◌≤◌, length};
ghost use Rattle.stream_model.specs.Masks.{levels_before};
ghost use Rattle.label_rules.specs.Masks.{factors_mask};
ghost use Rattle.label_rules.specs.Plans.{asked, has_loop, left_marks, free_marks};
ghost use Rattle.label_rules.specs.TermLabels.{left_after};

use label_rules::Plan;

/// Whether an access of a plan has a loop; both are counted from 0.
pub(crate) fn has_loop(plan: &Plan, loop_number: usize, f: usize) -> bool
    ensures { result ≡ has_loop plan.now loop_number f }
{
    match plan.accesses.as_slice().get(f) {
        Some(access) => access
            .has
            .as_slice()
            .get(loop_number)
            .copied()
            .unwrap_or(false),
        None => false,
    }
}

/// The number whose bit f is set for each access f that has a loop.
#[tactic(auto, using(crate::proofs::Ranges::range_further))]
pub(crate) fn full_mask(plan: &Plan, loop_number: usize) -> u8
    requires { length plan.now.accesses ≤ 8 }
    ensures { result ≡ factors_mask (asked plan.now loop_number) }
{
    let mut mask = 0u8;
    for f in 0..plan.accesses.len() {
        if has_loop(plan, loop_number, f) {
            mask |= 1 << f;
        }
    }
    mask
}

/// How many of these marks are set.
pub(crate) fn left_marks(marks: &[bool]) -> usize
    ensures count { result ≡ left_marks marks.now }
    ensures few { result ≤ length marks.now }
{
    match marks {
        [] => 0,
        [mark, rest @ ..] => {
            if *mark {
                1 + left_marks(rest)
            } else {
                left_marks(rest)
            }
        }
    }
}

/// How many aren't.
pub(crate) fn free_marks(marks: &[bool]) -> usize
    ensures count { result ≡ free_marks marks.now }
    ensures few { result ≤ length marks.now }
{
    match marks {
        [] => 0,
        [mark, rest @ ..] => {
            if *mark {
                free_marks(rest)
            } else {
                1 + free_marks(rest)
            }
        }
    }
}

/// How many loops on the left follow the next one that is taken away, where so many are gone.
pub(crate) fn left_after(gone: usize, marks: &[bool]) -> usize
    ensures { result ≡ left_after gone marks.now }
{
    match marks {
        [] => 0,
        [mark, rest @ ..] => {
            if !*mark && free_marks(rest) == gone {
                left_marks(rest)
            } else {
                left_after(gone, rest)
            }
        }
    }
}

/// How many of the first d loops an access has.
pub(crate) fn levels_before(has: &[bool], d: usize) -> usize
    ensures count { result ≡ levels_before has.now d }
    ensures few { result ≤ d }
{
    match has {
        [] => 0,
        [mark, rest @ ..] => {
            if d == 0 {
                0
            } else if *mark {
                1 + levels_before(rest, d - 1)
            } else {
                levels_before(rest, d - 1)
            }
        }
    }
}
