// A plan's text, read into a memory that holds its job.
ghost use Rattle.std.specs.Prelude.{◌≡◌, [], not, ℕ, ◌+◌, ◌*◌, ◌≤◌, ◌<◌, eqb, length, Ok};
ghost use Rattle.definitions.specs.Lists.{nth, all};
ghost use Rattle.definitions.specs.Limits.{document01};
ghost use Rattle.definitions.specs.Text.{lines};
ghost use Rattle.definitions.specs.Job.{incoming};
ghost use Rattle.definitions.specs.Plan.{strays, processors_of, plan_head_of, plan_head_rule, plan_line, plan_line_rule, read_plan};
ghost use Rattle.definitions.specs.Plan as Plan;
ghost use Rattle.text.specs.Meaning.{reading, due_of};
ghost use Rattle.heads.specs.Layout.{memory_size, line_at, blocked_at, largest_delay_at, replica_end};
ghost use Rattle.jobs.specs.Held.{job_in, JobHeld, SomeJobHeld, LinksHeld};
ghost use Rattle.plans.specs.Lines.{row_end, replica_strays, lines_in, RowHeld, LinesHeld};
ghost use Rattle.lists.specs.Kept.{KeptOutside};
ghost use Rattle.plans.specs.Loading.{line_in, RowFilled, LineRead, plan_from, PlanLoaded};

use crate::row;
use heads::layout::{LINE, LOWER, UPPER};
use jobs::House;
use lines::reader::Reader;
use text::limits::{LOSSES, PROCESSORS, TASKS, TEXT_LENGTH, TICK};
use text::refusal::Refusal;

// Whether a plan's head is refused.
#[tactic(auto, unfolding(definitions::specs::Plan::plan_head_rule, definitions::specs::Text::first_of, jobs::specs::Held::job_in))]
fn check_head(mem: &[u64], head: &[u64; 5]) -> Result<(), Refusal>
    requires { 4 ≤ length mem.now }
    ensures { due_of result ≡ plan_head_rule document01 (job_in mem.now) (plan_head_of head.now) }
{
    let [tasks, processors, losses, lower, upper] = *head;
    if text::outside(1, TASKS, tasks)
        || text::outside(1, PROCESSORS, processors)
        || text::outside(0, LOSSES, losses)
        || text::outside(0, TICK, lower)
        || text::outside(0, TICK, upper)
    {
        return Err(Refusal::OutOfRange);
    }
    if tasks != mem[0] || processors != mem[1] || losses != mem[3] {
        return Err(Refusal::OtherJob);
    }
    Ok(())
}

// Replica c of the line at `a` is on no processor of the job, or has a tick outside its range.
fn replica_outside(mem: &[u64], a: usize, c: usize) -> bool
    requires { (4 ≤ length mem.now) × (replica_end a c ≤ length mem.now) }
    ensures { result ≡ replica_strays document01 a c mem.now }
{
    let x = row::replica_at(mem, a, c);
    x.processor >= mem[1] || text::outside(0, TICK, x.early) || text::outside(0, TICK, x.late)
}

// The task, a processor or a tick of the line at `a` is outside its range.
fn outside_ranges(mem: &[u64], a: usize) -> bool
    requires { SomeJobHeld document01 mem.now × (row_end a ≤ length mem.now) }
    ensures { result ≡ strays document01 (job_in mem.now) (line_in a mem.now) }
{
    if mem[a] >= mem[0] {
        return true;
    }
    let w = mem[3] as usize + 1;
    (0..w).any(|c| replica_outside(mem, a, c))
}

// In the line at `a` a processor is less than the one before.
fn descends(mem: &[u64], a: usize) -> bool
    requires { SomeJobHeld document01 mem.now × (row_end a ≤ length mem.now) }
    ensures { result ≡ Plan.descends (processors_of (line_in a mem.now)) }
{
    let n = mem[3] as usize;
    (0..n).any(|c| row::replica_at(mem, a, c + 1).processor < row::replica_at(mem, a, c).processor)
}

// Every predecessor of t has a line.
fn predecessors_placed(house: House, t: usize) -> bool
    requires { JobHeld document01 house.capacity house.mem.now × LinksHeld house.mem.now house.links.now × (t < nth house.mem.now 0) }
    ensures { result ≡ all (λ e. not (eqb (nth house.entry.mem.now (line_at house.entry.capacity + e.from)) 0)) (incoming (job_in house.entry.mem.now) t) }
{
    let run = orders::entering(house.links, house.mem[0] as usize, t);
    house.links[run.start..run.end]
        .iter()
        .all(|edge| row::has_line(house, orders::edge_from(*edge)))
}

// Whether the line at `a` is refused, after the lines that have a place in the table.
fn check_line(house: House, a: usize) -> Result<(), Refusal>
    requires { JobHeld document01 house.capacity house.mem.now × LinksHeld house.mem.now house.links.now × (row_end a ≤ length house.mem.now) }
    ensures { ((k : ℕ) → LinesHeld document01 house.entry.capacity k house.entry.mem.now
        → due_of result ≡ plan_line_rule document01 (job_in house.entry.mem.now)
        (lines_in house.entry.capacity (nth house.entry.mem.now 3 + 1) k house.entry.mem.now) (line_in a house.entry.mem.now))
        × (due_of result ≡ 0 → (nth house.entry.mem.now a < nth house.entry.mem.now 0)
        × (nth house.entry.mem.now (line_at house.entry.capacity + nth house.entry.mem.now a) ≡ 0)
        × RowHeld document01 a house.entry.mem.now) }
{
    if outside_ranges(house.mem, a) {
        return Err(Refusal::OutOfRange);
    }
    if descends(house.mem, a) {
        return Err(Refusal::ProcessorsDescend);
    }
    let t = house.mem[a] as usize;
    if row::has_line(house, t) || !predecessors_placed(house, t) {
        return Err(Refusal::TaskOutOfTurn);
    }
    Ok(())
}

// No task has a line.
fn clear_lines(mem: &mut [u64], capacity: usize)
    requires { length mem.old ≡ memory_size capacity }
    ensures { KeptOutside (line_at capacity) (blocked_at capacity) mem.old mem.new × ((t : ℕ) → t < 8 * capacity → nth mem.new (line_at capacity + t) ≡ 0) }
{
    let line = LINE * capacity;
    mem[line..line + 8 * capacity].fill(0);
}

// The next T line, read into row k.
fn fill_row(reader: &mut Reader, mem: &mut [u64], capacity: usize, k: usize) -> Result<(), Refusal>
    requires { LinesHeld document01 capacity k mem.old × (k < nth mem.old 0) }
    ensures { RowFilled document01 capacity k reader.old reader.new mem.old mem.new result }
{
    let n = row::line_cells(&mem[..]);
    let a = row::row_at(capacity, k);
    reader.line(b"T,", n, &mut mem[a..a + n])
}

// The next T line, kept as row k, after the k lines before it.
fn read_plan_line(
    reader: &mut Reader,
    mem: &mut [u64],
    links: &[u64],
    capacity: usize,
    k: usize,
) -> Result<(), Refusal>
    requires { LinesHeld document01 capacity k mem.old × LinksHeld mem.old links.now × (k < nth mem.old 0) }
    ensures { LineRead document01 capacity k reader.old reader.new mem.old mem.new result }
{
    fill_row(reader, mem, capacity, k)?;
    let a = row::row_at(capacity, k);
    let house = House {
        mem: &mem[..],
        links,
        capacity,
    };
    check_line(house, a)?;
    let t = mem[a] as usize;
    row::put_line(mem, capacity, t, k);
    Ok(())
}

// The T lines, kept as rows.
fn read_plan_lines(
    reader: &mut Reader,
    mem: &mut [u64],
    links: &[u64],
    capacity: usize,
) -> Result<(), Refusal>
    requires { LinesHeld document01 capacity 0 mem.old × LinksHeld mem.old links.now }
    ensures { KeptOutside (line_at capacity) (largest_delay_at capacity) mem.old mem.new
        × (reading reader.new (lines_in capacity (nth mem.new 3 + 1) (nth mem.new 0) mem.new) result ≡ lines
        (plan_line document01 (job_in mem.old)) (plan_line_rule document01 (job_in mem.old)) (nth mem.old 0) [] reader.old)
        × (result ≡ Ok tt → LinesHeld document01 capacity (nth mem.new 0) mem.new) }
{
    let v = mem[0] as usize;
    for k in 0..v {
        read_plan_line(reader, mem, links, capacity, k)?;
    }
    Ok(())
}

// The T lines, and then M* and M, which the head has.
fn load_lines(
    mut reader: Reader,
    lower: u64,
    upper: u64,
    mem: &mut [u64],
    links: &[u64],
    capacity: usize,
) -> Result<(), Refusal>
    requires { JobHeld document01 capacity mem.old × LinksHeld mem.old links.now }
    ensures { KeptOutside (line_at capacity) (largest_delay_at capacity) mem.old mem.new
        × PlanLoaded document01 capacity (plan_from document01 (job_in mem.old) lower upper reader.entry) mem.new result }
{
    clear_lines(mem, capacity);
    read_plan_lines(&mut reader, mem, links, capacity)?;
    if !reader.is_at_end() {
        return Err(Refusal::BadLine);
    }
    mem[LOWER * capacity] = lower;
    mem[UPPER * capacity] = upper;
    Ok(())
}

// A plan's text for the job in memory, whose links are in theirs.
pub fn load_plan(s: &[u8], mem: &mut [u64], links: &[u64], capacity: usize) -> Result<(), Refusal>
    requires { JobHeld document01 capacity mem.old × LinksHeld mem.old links.now }
    ensures { KeptOutside (line_at capacity) (largest_delay_at capacity) mem.old mem.new
        × PlanLoaded document01 capacity (read_plan document01 (job_in mem.old) s.now) mem.new result }
{
    if s.len() > TEXT_LENGTH {
        return Err(Refusal::TooLong);
    }
    let mut reader = Reader::new(s);
    let mut head = [0u64; 5];
    reader.line(b"PLAN,", 5, &mut head)?;
    check_head(&mem[..], &head)?;
    let [.., lower, upper] = head;
    load_lines(reader, lower, upper, mem, links, capacity)
}
