// Numbers of a text.
ghost use Rattle.std.specs.Prelude.{◌≡◌, ◌+◌, ◌-◌, ◌<◌, ◌≤◌, true, false, length, drop};
ghost use Rattle.definitions.specs.Limits.{document01};
ghost use Rattle.definitions.specs.Text.{is_digit, digits, number};
ghost use Rattle.text.specs.Meaning.{number_reading};

use text::limits::DIGITS;

// The digit that the byte b is; above 9 if it is none.
// Kept: above 9 in place of None: an Option is no plainer, each of the calls would take it apart at once.
fn digit(b: u8) -> u64
    ensures { (result ≤ 9 → (is_digit b ≡ true) × (b ≡ result + 48)) × (9 < result → is_digit b ≡ false) }
{
    u64::from(b).wrapping_sub(u64::from(b'0'))
}

// The digits that follow the first one, which stands at `at`.
#[tactic(auto, using(text::proofs::Reading::inner_stop, text::proofs::Reading::inner_full, text::proofs::Reading::inner_end))]
fn more_digits(s: &[u8], at: usize, first: u64) -> Option<(u64, usize)>
    requires { (at + (document01.digits + 2) ≤ length s.now) × (first ≤ 9) }
    ensures { number_reading s.now result ≡ digits (document01.digits - 1) first (drop (at + 1) s.now) }
{
    let mut acc = first;
    for i in 1..DIGITS {
        let d = digit(s[at + i]);
        if d > 9 {
            return Some((acc, at + i));
        }
        acc = acc * 10 + d;
    }
    if digit(s[at + DIGITS]) <= 9 {
        return None;
    }
    Some((acc, at + DIGITS))
}

// The number that stands at `at`. Where the text goes on for as many bytes as a number has at most, and two more, no digit needs a test for
// the text's end.
#[tactic(auto, using(text::proofs::Reading::inner_no, text::proofs::Reading::inner_zeros, text::proofs::Reading::inner_zero))]
pub fn read_number(s: &[u8], at: usize) -> Option<(u64, usize)>
    ensures { number_reading s.now result ≡ number document01 (drop at s.now) }
{
    if s.len().saturating_sub(DIGITS + 1) <= at {
        return text::read_number(s, at);
    }
    let first = digit(s[at]);
    if first > 9 {
        return None;
    }
    if first > 0 {
        return more_digits(s, at, first);
    }
    if digit(s[at + 1]) <= 9 {
        return None;
    }
    Some((0, at + 1))
}
