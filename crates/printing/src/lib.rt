// Lines of numbers, counted or written.
#![tactic(auto)]

ghost use Rattle.std.specs.Prelude.{◌≡◌, ◌%◌, ◌^◌, min, length};
ghost use Rattle.definitions.specs.Limits.{document01};
ghost use Rattle.definitions.specs.Text.{line_text};
ghost use Rattle.text.specs.Meaning.{written};

mod writer;

// A line, written at the front of `out`, if it fits. The answer is its length in either case.
pub fn line(out: &mut [u8], opening: &[u8], vals: &[u64]) -> usize
    ensures value { result ≡ length (line_text document01 opening.now vals.now) % 2 ^ 64 }
    ensures holds { out.new ≡ written out.old 0 (line_text document01 opening.now vals.now) }
{
    if writer::line_fits(out.len(), opening, vals) {
        let at = text::write_fixed(out, 0, opening);
        return writer::write_numbers(out, at, vals);
    }
    opening.len().wrapping_add(writer::numbers_length(vals))
}

// Where the part of an output of `room` bytes begins that is lent to the writer of a line at `at`: there, or at its end.
pub fn place_in(room: usize, at: usize) -> usize
    ensures { result ≡ min at room }
{
    at.min(room)
}
