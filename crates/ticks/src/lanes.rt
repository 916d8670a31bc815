// Times on many processors at once, in lanes of 64-bit floats: a tick is a whole number, never is the infinity. A table of 16 lanes has one
// for each processor, one of eight is for a half of them, processors 0 to 7 or 8 to 15; a ninth lane takes what is of no processor of that
// half.
ghost use Rattle.std.specs.Prelude.{ℕ, List, length, ◌<◌, ◌≤◌, ◌≡◌, ◌+◌, ◌*◌, ◌/◌, ◌%◌, ◌^◌, min, false, replicate, ◌==◌, if◌then◌else◌};
ghost use Rattle.std.specs.Float.{inf};
ghost use Rattle.std.specs.Float.Ieee.{Float};
ghost use Rattle.definitions.specs.Lists.{nth, sum};
ghost use Rattle.ticks.specs.Floats.{whole, lane};
ghost use Rattle.ticks.specs.Lanes as Lanes;
ghost use Rattle.ticks.specs.Lanes.{lanes, sent, delay_at, lane_in, least_lane};

// Never, in a cell of 64 bits.
pub const NEVER: u64 = u64::MAX;

// For each processor of a half an early and a late time.
// Kept: one generic struct for `Both` and `Clocks` was tried: it leaves no record of the name Clocks, of which definitions of rounds speak
// (ClocksHeld, ClocksAfter).
#[derive(Clone, Copy)]
pub struct Both {
    pub early: [f64; 8],
    pub late: [f64; 8],
}

// Never, in a lane.
pub fn no_time() -> f64
    ensures { result ≡ inf false }
{
    f64::INFINITY
}

// The sooner and the later of two times.
// Kept: `f64::min` and `f64::max` leave open which of two equal floats they give, and clauses name Lanes.lesser and Lanes.greater; one function
// for both would take a flag, and each of the two is one line.
fn lesser(x: f64, y: f64) -> f64
    ensures { result ≡ Lanes.lesser x y }
{
    if x < y { x } else { y }
}

fn greater(x: f64, y: f64) -> f64
    ensures { result ≡ Lanes.greater x y }
{
    if x < y { y } else { x }
}

// When a message that is sent at x arrives.
fn arrival(x: f64, volume: u16, delay: u16) -> f64
    ensures { result ≡ sent x volume delay }
{
    x + f64::from(volume) * f64::from(delay)
}

// The lane of processor q in a table of half h, or the ninth one.
pub fn lane_in(q: usize, h: usize) -> usize
    ensures { result ≡ lane_in q h }
{
    if q / 8 == h { q % 8 } else { 8 }
}

// A replica on q offers its data to the processors of half h: to each the sooner of its time in `low` and of the arrival of what q sends
// at x, and the later of its time in `high` and of the arrival of what q sends at y.
// Kept: `low` and `high` are two slices, each with its clause (`first`, `last`), of callers that have them as such.
pub fn offer(
    low: &mut [f64; 8],
    high: &mut [f64; 8],
    delays: &[u16; 256],
    q: usize,
    h: usize,
    volume: u16,
    x: f64,
    y: f64,
)
    ensures first { low.new ≡ lanes (λ p z. Lanes.lesser (sent x volume (nth delays.now (delay_at q h + p))) z) 8 low.old }
    ensures last { high.new ≡ lanes (λ p z. Lanes.greater z (sent y volume (nth delays.now (delay_at q h + p)))) 8 high.old }
{
    let a = q % 16 * 16 + h % 2 * 8;
    for p in 0..8 {
        let n = delays[a + p];
        let e = arrival(x, volume, n);
        let l = arrival(y, volume, n);
        low[p] = lesser(e, low[p]);
        high[p] = greater(high[p], l);
    }
}

// Eight lanes of `high`, from lane a on, are merged by f with the first eight of `low`.
fn merge<F: Fn(f64, f64) -> f64>(high: &mut [f64], a: usize, low: &[f64], f: F)
    requires room { (a + 8 ≤ length high.old) × (8 ≤ length low.now) }
    requires callable { F.IsAlwaysCallable f }
    ensures { (g : ℕ → Float → Float) (xs : List Float) → ((p : ℕ) (z r : Float) → p < 8 → F.post f z (lane low.now p) r → r ≡ g (a + p) z)
        → high.old ≡ lanes g a xs → high.new ≡ lanes g (a + 8) xs }
{
    for p in 0..8 {
        high[a + p] = f(high[a + p], low[p]);
    }
}

// For each processor of a half the later of its times in `high` and in `low`.
pub fn raise(high: &mut [f64; 8], low: &[f64; 9])
    ensures { high.new ≡ lanes (λ p z. Lanes.greater z (lane low.now p)) 8 high.old }
{
    merge(high, 0, low, greater);
}

// For each processor of a half the sooner of its times in `high` and in `low`.
pub fn lower(high: &mut [f64; 8], low: &[f64; 9])
    ensures { high.new ≡ lanes (λ p z. Lanes.lesser (lane low.now p) z) 8 high.old }
{
    merge(high, 0, low, |time, other| lesser(other, time));
}

// For each processor of half h the later of its times in `high` and in `low`; the others keep theirs.
pub fn raise_half(high: &mut [f64; 16], low: &[f64; 8], h: usize)
    ensures { high.new ≡ lanes (λ p z. if p / 8 == h % 2 then Lanes.greater z (lane low.now (p % 8)) else z) 16 high.old }
{
    merge(high, h % 2 * 8, low, greater);
}

// Ticks of 32 bits in lanes.
pub fn floats(ticks: &[u32; 16]) -> [f64; 16]
    ensures { result ≡ lanes (λ p z. whole (nth ticks.now p)) 16 (replicate 16 (whole 0)) }
{
    std::array::from_fn(|p| f64::from(ticks[p]))
}

// The least time of the first m processors, of the 16.
pub fn least(times: &[f64; 16], m: usize) -> f64
    ensures { result ≡ least_lane (min m 16) times.now }
{
    let first = &times[..m.min(16)];
    first.iter().fold(no_time(), |x, time| lesser(*time, x))
}

// The sum of the cells.
pub fn total(cells: &[u64]) -> u64
    ensures { result ≡ sum cells.now % 2 ^ 64 }
{
    cells.iter().fold(0, |x, cell| x.wrapping_add(*cell))
}
