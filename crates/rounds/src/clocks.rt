// The clocks after a line.
ghost use Rattle.std.specs.Prelude.{◌+◌};
ghost use Rattle.definitions.specs.Lists.{nth};
ghost use Rattle.definitions.specs.Limits.{document01};
ghost use Rattle.rounds.specs.Clocks.{LineTimed, Advanced};

use crate::row;
use ticks::clocks::Clocks;

// The clocks after the replicas of the line at `a`, replica by replica.
pub fn advance_line(mem: &[u64], a: usize, clocks: Clocks) -> Clocks
    requires { LineTimed document01 a mem.now }
    ensures { Advanced a (nth mem.now 3 + 1) mem.now clocks result }
{
    let first = row::place(a, 0);
    let end = row::place(a, mem[3] as usize + 1);
    clocks.advance(&mem[first..end])
}
