//! Times the solver, for the scripts of `bench/`: how many nanoseconds one call took on the puzzle of each line of standard input, and how many
//! solutions it found, at most two, or at most a hundred where they are listed. A line is a game, a class if there is one, and a game ID, with a
//! space between.
//!
//! ```text
//! $ echo 'towers small 3:3//////3/////' | trial_runs each
//! 702 1
//! ```

use clue_rules::{Game, GameId, Towers, Unequal, read_id};
use std::alloc::Global;
use std::io;
use std::rt::Clock;
use std::time::Instant;
use trail_solver::{Answer, solutions, solve};

/// A batch has as many calls as fill so many nanoseconds, by the first call's time: some hundred times what a look at the clock costs.
const BATCH_TIME: u64 = 20_000;

/// How many batches there are at most, and after how many nanoseconds none begins, so that what takes long is done just once.
const BATCHES: u64 = 15;

const ENOUGH: u64 = 1_000_000;

/// How many solutions are listed.
const LISTED: u8 = 100;

/// A task that is timed.
#[derive(Clone, Copy)]
pub(crate) enum Task {
    Solve,
    List,
}

/// How long one call took in nanoseconds, and how many solutions it found: at most two, or as many as are listed.
#[derive(Clone, Copy)]
struct Timing {
    nanoseconds: u64,
    solutions: u64,
}

/// Answers each line of standard input at once, since a script ends what takes too long.
pub(crate) fn time_lines<R: Clock + Alloc<A = Global> + Input + Print>(
    rt: &R,
    task: Task,
) -> io::Result<()> {
    for line in rt.lines(rt.alloc()) {
        let line = line?;
        match timing_of_line(rt, task, line.as_str())? {
            Some(timing) => println!(rt; "{} {}", timing.nanoseconds, timing.solutions)?,
            None => println!(rt; "cannot read {line}")?,
        }
    }
    Ok(())
}

// None where the line has no puzzle.
fn timing_of_line(
    rt: &(impl Clock + Alloc<A = Global>),
    task: Task,
    line: &str,
) -> io::Result<Option<Timing>> {
    match line.rsplit_once(' ') {
        Some((name, id)) if name.starts_with("towers") => timing_of::<Towers>(rt, task, id),
        Some((_, id)) => timing_of::<Unequal>(rt, task, id),
        None => Ok(None),
    }
}

fn timing_of<P: Game>(
    rt: &(impl Clock + Alloc<A = Global>),
    task: Task,
    id: &str,
) -> io::Result<Option<Timing>> {
    match read_id::<P>(id.as_bytes()) {
        Ok(GameId::Described(_, puzzle)) => Ok(Some(fastest(rt, task, &puzzle)?)),
        _ => Ok(None),
    }
}

// The fastest batch, or the first call alone, since others may work on the machine.
fn fastest<P: Game>(
    rt: &(impl Clock + Alloc<A = Global>),
    task: Task,
    puzzle: &P,
) -> io::Result<Timing> {
    let mut fastest = batch(rt, task, puzzle, 1)?;
    let calls = (BATCH_TIME / fastest.nanoseconds.max(1)).saturating_add(1);
    let mut spent = fastest.nanoseconds;
    for _ in 0..BATCHES {
        if spent > ENOUGH {
            break;
        }
        let mean = batch(rt, task, puzzle, calls)?.nanoseconds;
        fastest.nanoseconds = fastest.nanoseconds.min(mean);
        spent = spent.saturating_add(mean.saturating_mul(calls));
    }
    Ok(fastest)
}

// The mean of so many calls in a row, between two looks at the clock, so that what the clock costs doesn't count.
fn batch<P: Game>(
    rt: &(impl Clock + Alloc<A = Global>),
    task: Task,
    puzzle: &P,
    calls: u64,
) -> io::Result<Timing> {
    let start = Instant::now(rt)?;
    let mut found: u64 = 0;
    for _ in 0..calls {
        found = found.wrapping_add(found_by(rt.alloc(), task, puzzle));
    }
    let elapsed = u64::try_from(start.elapsed(rt)?.as_nanos()).unwrap_or(u64::MAX);
    Ok(Timing {
        nanoseconds: elapsed / calls.max(1),
        solutions: found / calls.max(1),
    })
}

fn found_by<P: Game>(alloc: Global, task: Task, puzzle: &P) -> u64 {
    match task {
        Task::Solve => match solve(puzzle) {
            Answer::None => 0,
            Answer::One(_) => 1,
            Answer::Several(_, _) => 2,
        },
        Task::List => match solutions(alloc, puzzle, LISTED) {
            Ok(listed) => listed.len() as u64,
            Err(_) => 0,
        },
    }
}
