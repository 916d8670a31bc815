// The R line of a task that never finishes.
ghost use Rattle.std.specs.Prelude.{◌≡◌, ◌≤◌, length};
ghost use Rattle.definitions.specs.Limits.{document01};
ghost use Rattle.definitions.specs.Times.{never};
ghost use Rattle.definitions.specs.Replay.{result_line};
ghost use Rattle.text.specs.Meaning.{written};

// `R,t,-,-`, written at the front of `out`, if it fits. The answer is its length in either case.
pub fn undone_line(out: &mut [u8], t: u64) -> usize
    ensures value { (result ≡ length (result_line document01 t never 0)) × (result ≤ 35) }
    ensures holds { out.new ≡ written out.old 0 (result_line document01 t never 0) }
{
    let n = 7 + text::width_of(t);
    if out.len() < n {
        return n;
    }
    let a = text::write_fixed(out, 0, b"R,");
    let b = text::write_number(out, a, t);
    text::write_fixed(out, b, b",-,-\n");
    n
}
