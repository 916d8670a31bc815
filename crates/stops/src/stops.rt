// A stop list's text: for each processor the tick at which it stops.
ghost use Rattle.std.specs.Prelude.{◌≡◌, [], ℕ, ◌≤◌, ◌<◌, length};
ghost use Rattle.definitions.specs.Lists.{nth};
ghost use Rattle.definitions.specs.Limits.{document01};
ghost use Rattle.definitions.specs.Text.{ended};
ghost use Rattle.definitions.specs.Job.{Job};
ghost use Rattle.text.specs.Meaning.{due_of};
ghost use Rattle.ticks.specs.Cells.{never_cell};
ghost use Rattle.stops.specs.Loading.{stop_lines, StopRuled, StopsLoaded};

use lines::reader::Reader;
use text::limits::TICK;
use text::refusal::Refusal;

// The stop lines that are left, for cells that are all never.
pub fn read_stop_lines(mut reader: Reader, m: u64, stops: &mut [u64]) -> Result<(), Refusal>
    requires { (m ≤ length stops.old) × ((q : ℕ) → q < length stops.old → nth stops.old q ≡ never_cell) }
    ensures { (j : Job) → j.processors ≡ m
        → StopsLoaded document01 (ended (stop_lines document01 j (length reader.entry) [] reader.entry)) stops.new result }
{
    let mut line = [0u64; 2];
    let mut least = 0;
    while !reader.is_at_end() {
        reader.line(b"S,", 2, &mut line)?;
        let [processor, tick] = line;
        check_stop(m, least, processor, tick)?;
        stops[processor as usize] = tick;
        least = processor + 1;
    }
    Ok(())
}

// Whether a stop line is refused; `least` is the least processor that may come.
fn check_stop(m: u64, least: u64, processor: u64, tick: u64) -> Result<(), Refusal>
    ensures { StopRuled document01 m least (record { processor = processor; tick = tick }) (due_of result)
        × (due_of result ≡ 0 → (processor < m) × (tick ≤ document01.tick) × (least ≤ processor)) }
{
    if processor >= m || tick > TICK {
        return Err(Refusal::OutOfRange);
    }
    if processor < least {
        return Err(Refusal::StopsDescend);
    }
    Ok(())
}
