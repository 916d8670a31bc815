// The numbers at the end of a line, counted and written.
ghost use Rattle.std.specs.Prelude.{◌≡◌, ◌+◌, ◌≤◌, length, nat_le};
ghost use Rattle.definitions.specs.Limits.{document01};
ghost use Rattle.definitions.specs.Text.{numbers_text, line_text};
ghost use Rattle.lists.specs.Over.{over};

// The bytes that they take.
pub fn numbers_length(vals: &[u64]) -> usize
    ensures { result ≡ length (numbers_text document01 vals.now) }
{
    vals.iter().map(|x| text::width_of(*x) + 1).sum()
}

// A line takes no more than `room` bytes. A number takes 11 at most, so long lines alone are counted.
pub fn line_fits(room: usize, opening: &[u8], vals: &[u64]) -> bool
    ensures { result ≡ nat_le (length (line_text document01 opening.now vals.now)) room }
{
    let Some(left) = room.checked_sub(opening.len()) else {
        return false;
    };
    vals.len() <= left / 11 || numbers_length(vals) <= left
}

// The numbers, written from `at` on. The answer is the place after them.
pub fn write_numbers(out: &mut [u8], at: usize, vals: &[u64]) -> usize
    requires { at + length (numbers_text document01 vals.now) ≤ length out.old }
    ensures { (result ≡ at + length (numbers_text document01 vals.now)) × (out.new ≡ over out.old at (numbers_text document01 vals.now)) }
{
    let mut p = at;
    for (i, &x) in vals.iter().enumerate() {
        p = text::write_number(out, p, x);
        out[p] = text::mark_after(vals.len() - (i + 1));
        p += 1;
    }
    p
}
