// The checker: 12, 13 and 14 of a plan in memory.
ghost use Rattle.std.specs.Prelude.{◌≡◌, [], true, ◌+◌, ◌*◌, ◌<◌, ◌≤◌, length};
ghost use Rattle.definitions.specs.Lists.{nth};
ghost use Rattle.definitions.specs.Limits.{document01};
ghost use Rattle.definitions.specs.Text.{good};
ghost use Rattle.definitions.specs.Refusals.{doubled_tasks, ticks_agree, bounds_agree};
ghost use Rattle.definitions.specs.Tools.{verdict_for};
ghost use Rattle.jobs.specs.Held.{job_in, LinksHeld};
ghost use Rattle.rounds.specs.Schedule.{ShortTo};
ghost use Rattle.plans.specs.Loading.{plan_in, PlanHeld};
ghost use Rattle.rounds.specs.Verdicts.{Judged};
ghost use Rattle.rounds.specs.Arrivals.{DelaysHeld, Ended};
ghost use Rattle.replicas.specs.Cells.{doubled_in};
ghost use Rattle.rounds.specs.Clocks.{SettledTo};
ghost use Rattle.rounds.specs.Checking.{ClocksAfter, LineAgrees, DoubledBy};

use crate::times::Delays;
use crate::{Fault, clocks, makespans, row, times};
use heads::layout::{LOWER, UPPER};
use jobs::House;
use text::refusal::Refusal;
use ticks::clocks::Clocks;

// A task that has two replicas on one processor, if there is one.
fn doubled(mem: &[u64], capacity: usize) -> Option<u64>
    requires { PlanHeld document01 capacity mem.now }
    ensures { DoubledBy (doubled_tasks (plan_in capacity mem.now).lines) (doubled_in result) }
{
    let first = row::row_at(capacity, 0);
    let end = row::row_at(capacity, mem[0] as usize);
    let w = mem[3] as usize + 1;
    replicas::doubled_task(&mem[first..end], w)
}

// The ticks of line k are the equations'.
fn line_agrees(house: House, delays: &Delays, ends: &[f64], k: usize, clocks: Clocks) -> bool
    requires { PlanHeld document01 house.capacity house.mem.now × DelaysHeld document01 delays.now house.mem.now
        × Ended document01 house.capacity k house.mem.now ends.now × (k < nth house.mem.now 0) × ShortTo document01 house.capacity k house.mem.now
        × ClocksAfter house.capacity k house.mem.now clocks × SettledTo house.capacity k house.mem.now
        × LinksHeld house.mem.now house.links.now }
    ensures { (result ≡ true → LineAgrees house.entry.capacity k house.entry.mem.now × ShortTo document01 house.entry.capacity (k + 1) house.entry.mem.now)
        × (LineAgrees house.entry.capacity k house.entry.mem.now → result ≡ true) }
{
    let mem = house.mem;
    let a = row::row_at(house.capacity, k);
    let t = mem[a] as usize;
    let finishes = times::finishes(house, delays, ends, t, &clocks);
    for c in 0..mem[3] as usize + 1 {
        let x = row::replica_at(mem, a, c);
        let p = x.processor;
        if u64::from(finishes.early[p]) != x.early || u64::from(finishes.late[p]) != x.late {
            return false;
        }
    }
    true
}

// All ticks are the equations', line by line, with a table for the lines' ends.
fn lines_agree(house: House, ends: &mut [f64]) -> bool
    requires { PlanHeld document01 house.capacity house.mem.now × (doubled_tasks (plan_in house.capacity house.mem.now).lines ≡ [])
        × LinksHeld house.mem.now house.links.now × (2 * nth house.mem.now 0 ≤ length ends.old) }
    ensures { result ≡ ticks_agree (job_in house.entry.mem.now) (plan_in house.entry.capacity house.entry.mem.now).lines }
{
    let mem = house.mem;
    let mut delays = Delays::new();
    delays.fill(mem);
    let mut clocks = Clocks::new();
    for k in 0..mem[0] as usize {
        if !line_agrees(house, &delays, &ends[..], k, clocks) {
            return false;
        }
        let a = row::row_at(house.capacity, k);
        times::put_ends(mem, a, mem[a] as usize, ends);
        clocks = clocks::advance_line(mem, a, clocks);
    }
    true
}

// All ticks are the equations'. The table of ends is made for the job, as the memory is.
fn ticks_agree(house: House) -> bool
    requires { PlanHeld document01 house.capacity house.mem.now × (doubled_tasks (plan_in house.capacity house.mem.now).lines ≡ [])
        × LinksHeld house.mem.now house.links.now }
    ensures { result ≡ ticks_agree (job_in house.entry.mem.now) (plan_in house.entry.capacity house.entry.mem.now).lines }
{
    times::with_ends(house.mem[0], &mut |ends| lines_agree(house, ends))
}

// M* and M are the equations', if all ticks are.
fn bounds_agree(house: House) -> bool
    requires { PlanHeld document01 house.capacity house.mem.now × LinksHeld house.mem.now house.links.now
        × (doubled_tasks (plan_in house.capacity house.mem.now).lines ≡ [])
        × (ticks_agree (job_in house.mem.now) (plan_in house.capacity house.mem.now).lines ≡ true) }
    ensures { result ≡ bounds_agree (job_in house.entry.mem.now) (plan_in house.entry.capacity house.entry.mem.now) }
{
    let lower_at = LOWER * house.capacity;
    let upper_at = UPPER * house.capacity;
    let ends = makespans::makespans_of(house);
    ends.lower == house.mem[lower_at] && ends.upper == house.mem[upper_at]
}

// The checker's answer to the plan in memory, none of whose tasks has two replicas on one processor.
fn compare(house: House) -> Result<(), Fault>
    requires { PlanHeld document01 house.capacity house.mem.now × LinksHeld house.mem.now house.links.now
        × (doubled_tasks (plan_in house.capacity house.mem.now).lines ≡ []) }
    ensures { Judged (verdict_for document01 (job_in house.entry.mem.now) (good (plan_in house.entry.capacity house.entry.mem.now))) result }
{
    if !ticks_agree(house) {
        return Err(Fault::Refused(Refusal::WrongTick));
    }
    if !bounds_agree(house) {
        return Err(Fault::Refused(Refusal::WrongMakespan));
    }
    Ok(())
}

// The checker's answer to the plan in memory.
pub fn judge(house: House) -> Result<(), Fault>
    requires { PlanHeld document01 house.capacity house.mem.now × LinksHeld house.mem.now house.links.now }
    ensures { Judged (verdict_for document01 (job_in house.entry.mem.now) (good (plan_in house.entry.capacity house.entry.mem.now))) result }
{
    match doubled(house.mem, house.capacity) {
        Some(t) => Err(Fault::Doubled(t as u8)),
        None => compare(house),
    }
}
