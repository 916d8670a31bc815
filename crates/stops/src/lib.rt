// A stop list's text, read into a memory.
#![tactic(auto)]

ghost use Rattle.std.specs.Prelude.{◌≡◌, length};
ghost use Rattle.definitions.specs.Limits.{document01};
ghost use Rattle.definitions.specs.Job.{Job};
ghost use Rattle.stops.specs.Loading.{stops_from, StopsLoaded};

use lines::reader::Reader;
use text::limits::TEXT_LENGTH;
use text::refusal::Refusal;
use ticks::lanes::NEVER;

mod stops;

// A stop list's text for m processors: the tick at which each stops, never for those that do not stop.
pub fn load_stops(s: &[u8], m: u64, stops: &mut [u64]) -> Result<(), Refusal>
    ensures { (j : Job) → j.processors ≡ m → StopsLoaded document01 (stops_from document01 (length stops.old) j s.now) stops.new result }
{
    if (stops.len() as u64) < m {
        return Err(Refusal::NoRoom);
    }
    if s.len() > TEXT_LENGTH {
        return Err(Refusal::TooLong);
    }
    stops.fill(NEVER);
    stops::read_stop_lines(Reader::new(s), m, stops)
}
