//! The works of all blocks, each in a thread of its own.

ghost use Rattle.std.specs.Prelude.{◌≡◌, ◌<◌, length, set, slice_get, Some, IfSome, IfNone};
ghost use Rattle.std.specs.List.{All};
ghost use Rattle.std.specs.Thread.{IsSync};
ghost use Rattle.block_threads.specs.declared.nest.Job.{Job};
ghost use Rattle.block_threads.specs.declared.nest.Task.TheVariants as Task;
ghost use Rattle.block_threads.specs.Tasks.{IsReady, EndsAs, AreReady, HaveRun};

use crate::gate::Gate;
use crate::working::{Worked, work};
use block_core::BlockStep;
use ruled_wires::{Rx, Streams, Tx};
use std::mem::replace;
use std::sync::Wait;
use std::thread::{Threads, join};

/// A block with the ends of its wires, whose work has yet to begin.
#[derive(Drop)]
pub(crate) struct Job<W: Streams, B> {
    pub(crate) number: u32,
    pub(crate) block: B,
    pub(crate) ins: Vec<Rx<W>>,
    pub(crate) outs: Vec<Tx<W>>,
}

/// How far the work of a block is.
#[derive(Drop)]
pub(crate) enum Task<W: Streams, B> {
    Ready(Job<W, B>),
    Running,
    Ended(Worked<W, B>),
}

/// The work of one block.
fn run_job<W: Streams, B: BlockStep, G: Gate, R: Wait>(
    rt: &R,
    gate: &G,
    job: Job<W, B>,
) -> Worked<W, B>
    requires { IsReady B.BlockStep W.streams job }
    ensures { EndsAs B.BlockStep W.streams job result }
{
    work(rt, gate, job.number, job.block, job.ins, job.outs)
}

/// The job at a place, where one waits there; it runs from then on.
fn job_at<W: Streams, B: Drop>(tasks: &mut Vec<Task<W, B>>, place: usize) -> Option<Job<W, B>>
    requires { place < length tasks.old.items }
    ensures job { IfSome result (λ job. (slice_get tasks.old.items place ≡ Some (Task.Ready job)) × (tasks.new.items ≡ set tasks.old.items place Task.Running)) }
    ensures none { IfNone result ((tasks.new.items ≡ tasks.old.items) × ((job : Job W B) → slice_get tasks.old.items place ≡ Some (Task.Ready job) → ⊥)) }
{
    match replace(&mut tasks[place], Task::Running) {
        Task::Ready(job) => Some(job),
        other => {
            tasks[place] = other;
            None
        }
    }
}

/// The job at a place has ended.
fn ended_at<W: Streams, B: Drop>(
    mut tasks: Vec<Task<W, B>>,
    place: usize,
    worked: Worked<W, B>,
) -> Vec<Task<W, B>>
    requires { place < length tasks.items }
    ensures { result.items ≡ set tasks.items place (Task.Ended worked) }
{
    tasks[place] = Task::Ended(worked);
    tasks
}

/// The works of these blocks, in this order: that of the first in this thread, those of the others in another.
///
/// Where no thread can be made, each work runs to its end before the next begins.
#[cycle(works)]
pub(crate) fn run_all<
    W: Streams + Send,
    B: BlockStep + Send + Drop,
    G: Gate + Sync,
    R: Threads + Wait + Sync,
>(rt: &R, gate: &G, order: &[u32], mut tasks: Vec<Task<W, B>>) -> Vec<Task<W, B>>
    requires ready { AreReady B.BlockStep W.streams tasks.items }
    requires in_range { All (λ b. b < length tasks.items) order.now }
    ensures { HaveRun B.BlockStep W.streams order.now tasks.items result.items }
{
    let Some((number, rest)) = order.split_first() else {
        return tasks;
    };
    let place = *number as usize;
    let Some(job) = job_at(&mut tasks, place) else {
        return run_all(rt, gate, rest, tasks);
    };
    let (tasks, worked) = run_both(rt, gate, job, rest, tasks);
    ended_at(tasks, place, worked)
}

/// The work of one block in this thread, and those of the others in another.
#[cycle(works)]
fn run_both<
    W: Streams + Send,
    B: BlockStep + Send + Drop,
    G: Gate + Sync,
    R: Threads + Wait + Sync,
>(
    rt: &R,
    gate: &G,
    job: Job<W, B>,
    rest: &[u32],
    tasks: Vec<Task<W, B>>,
) -> (Vec<Task<W, B>>, Worked<W, B>)
    requires job { IsReady B.BlockStep W.streams job }
    requires ready { AreReady B.BlockStep W.streams tasks.items }
    requires in_range { All (λ b. b < length tasks.items) rest.now }
    ensures rest { HaveRun B.BlockStep W.streams rest.now tasks.items result.0.items }
    ensures job { EndsAs B.BlockStep W.streams job result.1 }
{
    join(
        rt,
        move || -> Vec<Task<W, B>>
            requires sync { IsSync R.row × IsSync G.row }
            requires ready { AreReady B.BlockStep W.streams tasks.items }
            requires in_range { All (λ b. b < length tasks.items) rest.now }
            ensures { HaveRun B.BlockStep W.streams rest.entry.now tasks.items result.items }
        { run_all(rt, gate, rest, tasks) },
        move || -> Worked<W, B>
            requires { IsReady B.BlockStep W.streams job }
            ensures { EndsAs B.BlockStep W.streams job result }
        { run_job(rt, gate, job) },
    )
}
