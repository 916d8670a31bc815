// The numbers that end a line.
ghost use Rattle.std.specs.Prelude.{◌≡◌, ◌≤◌, length, take, drop};
ghost use Rattle.definitions.specs.Limits.{document01};
ghost use Rattle.definitions.specs.Text.{numbers};
ghost use Rattle.text.specs.Meaning.{place_reading};

use crate::inner;
use text::refusal::Refusal;

// The k numbers that stand at `at` and end a line, kept at the front of `vals`.
#[tactic(auto, using(crate::proofs::LineLaws::after_none, crate::proofs::LineLaws::numbers_bad, crate::proofs::LineLaws::numbers_end))]
pub fn read_numbers(s: &[u8], at: usize, k: usize, vals: &mut [u64]) -> Result<usize, Refusal>
    requires { k ≤ length vals.old }
    ensures { (place_reading s.now (take k vals.new) result ≡ numbers document01 k (drop at s.now)) × (drop k vals.new ≡ drop k vals.old) }
{
    let mut p = at;
    for i in 0..k {
        let (v, next) = inner::read_number(s, p).ok_or(Refusal::BadLine)?;
        vals[i] = v;
        p = text::read_fixed(s, next, &[text::mark_after(k - (i + 1))])?;
    }
    Ok(p)
}
