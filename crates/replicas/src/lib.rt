// A plan's line in cells: its task, then three cells for each replica: processor, early time, late time. Lines with two replicas on one
// processor, a line's first finish, and the lines of a replay's answer.
#![tactic(auto)]

ghost use Rattle.std.specs.Prelude.{◌≡◌, [], ◌≤◌, leb, length, if◌then◌else◌};
ghost use Rattle.definitions.specs.Limits.{document01};
ghost use Rattle.definitions.specs.Replay.{result_line, end_line};
ghost use Rattle.text.specs.Meaning.{written};
ghost use Rattle.ticks.specs.Cells.{time_in};
ghost use Rattle.replicas.specs.Cells.{replicas_of, lines_of, doubled_in, first_twice, least_early, least_on};

use ticks::lanes::NEVER;

mod twice;
mod undone;

// The cells of a line, and those of a replica.
const ROW: usize = 25;

const REPLICA: usize = 3;

// A first finish and its processor.
// Kept: its time is a time in a cell, NEVER for none: the clauses of `first_finish` and `result_line` speak of `time_in first.time`.
#[derive(Clone, Copy, Debug, PartialEq, Eq)]
pub struct First {
    pub time: u64,
    pub processor: u64,
}

// The task of the first of the lines, 25 cells each, that has neighbouring replicas on one processor among its first w, which are 8 at
// most.
pub fn doubled_task(lines: &[u64], w: usize) -> Option<u64>
    ensures { doubled_in result ≡ (if leb w 8 then first_twice w (lines_of (length lines.now)) lines.now else []) }
{
    if w > 8 {
        return None;
    }
    twice::first_twice(lines, w)
}

// The first finish among the replicas in `cells`, three cells each, by their early times, and the processor of the first that has it.
pub fn first_finish(cells: &[u64]) -> First
    ensures time { result.time ≡ least_early (replicas_of (length cells.now)) cells.now }
    ensures processor { result.processor ≡ least_on (replicas_of (length cells.now)) cells.now }
{
    let mut first = First {
        time: NEVER,
        processor: 0,
    };
    for &[processor, time, _] in cells.as_chunks::<REPLICA>().0 {
        if time < first.time {
            first = First { time, processor };
        }
    }
    first
}

// The R line of t, written at the front of `out`, if it fits. The answer is its length in either case.
pub fn result_line(out: &mut [u8], t: u64, first: First) -> usize
    ensures value { (result ≡ length (result_line document01 t (time_in first.time) first.processor)) × (result ≤ 35) }
    ensures holds { out.new ≡ written out.old 0 (result_line document01 t (time_in first.time) first.processor) }
{
    if first.time == NEVER {
        return undone::undone_line(out, t);
    }
    printing::line(out, b"R,", &[t, first.processor, first.time])
}

// The L line, written at the front of `out`, if it fits. The answer is its length in either case.
pub fn end_line(out: &mut [u8], time: u64) -> usize
    ensures value { (result ≡ length (end_line document01 (time_in time))) × (result ≤ 13) }
    ensures holds { out.new ≡ written out.old 0 (end_line document01 (time_in time)) }
{
    if time == NEVER {
        text::write_fixed(out, 0, b"L,-\n");
        return 4;
    }
    printing::line(out, b"L,", &[time])
}
