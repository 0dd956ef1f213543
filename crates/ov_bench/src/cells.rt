//! Forcing the places of a plan, by one evaluator or by several at once.
ghost use Rattle.std.specs.Prelude.{◌≡◌, ◌<◌, ◌≤◌, length, IfOk};
ghost use Rattle.ov_bench.specs.Workers.{AreWorkers, IsWorker};
ghost use Rattle.ov_cells.specs.Seats.{IsSeatOf};

use crate::task::Task;
use crate::window::plan_of;
use anyhow::{Context, Result, bail};
use ov_cells::{CellSeat, Cells, Scratch};
use ov_window::Plan;
use std::thread;
use std::thread::Threads;

/// One of several evaluators, with what it forces by and its number among them.
#[derive(Drop)]
struct Worker {
    seat: CellSeat,
    scratch: Scratch,
    number: usize,
}

/// Forces so often every place of a plan, in order, by one evaluator; how many places there are.
pub fn force_all(rt: &HostRuntime, task: &Task) -> Result<usize> {
    let [keys] = task.words else {
        bail!("usage: ov_bench force_all SIZE TIMES KEYS");
    };
    let plan = plan_of(rt, task.size, keys.as_str())?;
    forced_often(rt, plan, 0, task.times)
}

/// Forces so often the last place of a plan; how many places there are.
pub fn force_last(rt: &HostRuntime, task: &Task) -> Result<usize> {
    let [keys] = task.words else {
        bail!("usage: ov_bench force_last SIZE TIMES KEYS");
    };
    let plan = plan_of(rt, task.size, keys.as_str())?;
    let last = plan.tasks().len().saturating_sub(1);
    forced_often(rt, plan, last, task.times)
}

/// Forces every place of a plan once, by so many threads, or none where TIMES is 0; how many places there are. Each thread takes
/// the places that are its number and every so many behind it.
pub fn force_threads<R: Threads + Sync>(
    rt: &HostRuntime,
    starter: &R,
    task: &Task,
) -> Result<usize> {
    let [keys, threads] = task.words else {
        bail!("usage: ov_bench force_threads SIZE TIMES KEYS THREADS");
    };
    let threads = threads.as_str().parse::<usize>().context("THREADS")?;
    let plan = plan_of(rt, task.size, keys.as_str())?;
    let count = plan.tasks().len();
    if task.times == 0 {
        return Ok(count);
    }
    let made = Cells::new(rt.alloc(), plan);
    let (cells, seat) = made.ok().context("out of memory")?;
    let mut workers = workers_of(rt, &cells, seat, threads)?;
    run(starter, &cells, workers.as_mut_slice());
    Ok(count)
}

/// Forces so often every place of a plan from one on; how many places there are.
fn forced_often(rt: &HostRuntime, plan: Plan, first: usize, times: u64) -> Result<usize> {
    let mut plan = plan;
    for _ in 0..times {
        plan = forced(rt, plan, first)?;
    }
    Ok(plan.tasks().len())
}

/// Makes cells of a plan, forces every place from one on, and closes the cells; the plan again.
fn forced(rt: &HostRuntime, plan: Plan, first: usize) -> Result<Plan> {
    let made = Cells::new(rt.alloc(), plan);
    let (cells, mut seat) = made.ok().context("out of memory")?;
    let scratch = Scratch::for_plan(rt.alloc(), cells.plan());
    let mut scratch = scratch.ok().context("out of memory")?;
    force_from(&cells, &mut seat, &mut scratch, first, 1);
    let mut seats = Vec::new(rt.alloc());
    seats.push(seat)?;
    let Ok((plan, _)) = cells.close(rt.alloc(), seats) else {
        bail!("out of memory");
    };
    Ok(plan)
}

/// Forces a place and every so many behind it.
fn force_from(cells: &Cells, seat: &mut CellSeat, scratch: &mut Scratch, first: usize, step: usize)
    requires own { IsSeatOf cells.now seat.old }
    requires room { length cells.now.tasks ≤ scratch.old }
    requires step { 0 < step }
    ensures own { IsSeatOf cells.now seat.new }
    ensures parts { seat.new.parts ≡ seat.old.parts }
{
    let count = cells.plan().tasks().len();
    let mut place = first;
    while place < count {
        cells.force(seat, scratch, place);
        place = place.saturating_add(step);
    }
}

/// So many workers, with seats that are split off the first.
fn workers_of(
    rt: &HostRuntime,
    cells: &Cells,
    first: CellSeat,
    threads: usize,
) -> Result<Vec<Worker>>
    requires { IsSeatOf cells.now first }
    ensures { IfOk result (λ workers. AreWorkers cells.now workers.items) }
{
    let mut first = first;
    let mut workers = Vec::new(rt.alloc());
    for number in 0..threads {
        workers.push(worker_of(rt, cells, &mut first, number)?)?;
    }
    Ok(workers)
}

/// The worker of a number, with a seat that is split off the first.
#[tactic(auto, unfolding(crate::specs::Workers::IsWorker))]
fn worker_of(rt: &HostRuntime, cells: &Cells, first: &mut CellSeat, number: usize) -> Result<Worker>
    requires { IsSeatOf cells.now first.old }
    ensures first { IsSeatOf cells.now first.new }
    ensures worker { IfOk result (λ worker. IsWorker cells.now worker) }
{
    let seat = cells.split(first).ok().context("too many threads")?;
    let scratch = Scratch::for_plan(rt.alloc(), cells.plan());
    let scratch = scratch.ok().context("out of memory")?;
    Ok(Worker {
        seat,
        scratch,
        number,
    })
}

/// Lets all workers force their places at once, each in a thread of its own.
fn run<R: Threads + Sync>(starter: &R, cells: &Cells, workers: &mut [Worker])
    requires { AreWorkers cells.now workers.old }
{
    let threads = workers.len();
    if threads > 0 {
        thread::for_each_mut(
            starter,
            workers,
            threads,
            &|_k: usize, worker: &mut Worker|
                requires { IsWorker cells.now worker.old × (0 < threads) }
            { force_share(cells, worker, threads) },
        );
    }
}

/// Forces a worker's share of the places, of so many workers.
#[tactic(auto, unfolding(crate::specs::Workers::IsWorker))]
fn force_share(cells: &Cells, worker: &mut Worker, threads: usize)
    requires worker { IsWorker cells.now worker.old }
    requires threads { 0 < threads }
{
    let first = worker.number;
    force_from(cells, &mut worker.seat, &mut worker.scratch, first, threads);
}
