// Leaves on bytes: numbers and fixed bytes, read and written.
#![tactic(auto)]

ghost use Rattle.std.specs.Prelude.{◌≡◌, ◌==◌, ◌≤◌, ◌<◌, ◌-◌, ◌+◌, ◌^◌, length, drop};
ghost use Rattle.std.specs.List.{list_all, zip};
ghost use Rattle.definitions.specs.Limits.{document01};
ghost use Rattle.definitions.specs.Job.{outside};
ghost use Rattle.definitions.specs.Text.{digits, number, exactly, mark, width, low_digits, decimal};
ghost use Rattle.lists.specs.Over.{over};
ghost use Rattle.text.specs.Meaning.{number_reading, Placed, place_reading, PlacedAt, written, place_after};

use crate::limits::{DIGITS, POWERS};
use crate::refusal::Refusal;

pub mod limits;
pub mod refusal;

// The powers of ten that decide a printed number's width.
// Kept: a table of ten, a project rule ("its printed width comes from the ten powers of ten").
const TENS: [u64; POWERS] = [
    1, 10, 100, 1000, 10000, 100000, 1000000, 10000000, 100000000, 1000000000,
];

// A number is outside its range.
pub fn outside(low: u64, high: u64, n: u64) -> bool
    ensures { result ≡ outside low high n }
{
    !(low..=high).contains(&n)
}

// The digits that follow, at most `room` of them, after those that make `value`.
#[tactic(auto, using(crate::proofs::Reading::digits_end, crate::proofs::Reading::digits_stop, crate::proofs::Reading::digits_full))]
fn more_digits(s: &[u8], at: usize, room: usize, value: u64) -> Option<(u64, usize)>
    requires { (at ≤ length s.now) × (room < document01.digits) × (value < 10 ^ (document01.digits - room)) }
    ensures result_value { number_reading s.now result ≡ digits room value (drop at s.now) }
    ensures placed { Placed s.now result }
{
    let mut left = room;
    let mut n = value;
    for i in at..s.len() {
        let d = s[i];
        if !d.is_ascii_digit() {
            return Some((n, i));
        }
        if left == 0 {
            return None;
        }
        left -= 1;
        n = n * 10 + u64::from(d - b'0');
    }
    Some((n, s.len()))
}

// The number that stands at `at`, and the place after it.
// Kept: text and place are two variables, the slice-and-cursor core of the reader, a form that the project names; and no `parse`: the number is
// document 01's, of ten digits at most and without a needless zero (clause `number_reading`).
#[tactic(auto, using(crate::proofs::Reading::number_end, crate::proofs::Reading::number_low, crate::proofs::Reading::number_high, crate::proofs::Reading::number_zero))]
pub fn read_number(s: &[u8], at: usize) -> Option<(u64, usize)>
    ensures result_value { number_reading s.now result ≡ number document01 (drop at s.now) }
    ensures placed { Placed s.now result }
{
    let first = *s.get(at)?;
    match first {
        b'0' => more_digits(s, at + 1, 0, 0),
        b'1'..=b'9' => more_digits(s, at + 1, DIGITS - 1, u64::from(first - b'0')),
        _ => None,
    }
}

// The bytes of a and b are equal as far as both go.
// Kept: `starts_with` takes 3.9 ns for an opening of two bytes, these pairs 2.3.
fn agree(a: &[u8], b: &[u8]) -> bool
    ensures { result ≡ list_all (λ p. p.0 == p.1) (zip a.now b.now) }
{
    a.iter().zip(b).all(|(x, y)| x == y)
}

// The place after the fixed bytes `opening`, if they stand at `at`.
#[tactic(auto, using(crate::proofs::Reading::fixed_stands, crate::proofs::Reading::fixed_fails, crate::proofs::Reading::fixed_ends))]
pub fn read_fixed(s: &[u8], at: usize, opening: &[u8]) -> Result<usize, Refusal>
    ensures result_value { place_reading s.now tt result ≡ exactly opening.now (drop at s.now) }
    ensures placed { PlacedAt (at + length opening.now) result }
{
    let rest = &s[at.min(s.len())..];
    if rest.len() < opening.len() || !agree(opening, rest) {
        return Err(Refusal::BadLine);
    }
    Ok(at + opening.len())
}

// The byte after a field that `left` more fields follow.
pub fn mark_after(left: usize) -> u8
    ensures { result ≡ mark left }
{
    if left == 0 { b'\n' } else { b',' }
}

// How many digits of n are written.
#[tactic(auto, using(crate::proofs::Powers::width_stop, crate::proofs::Powers::width_next, crate::proofs::Powers::width_end))]
pub fn width_of(n: u64) -> usize
    ensures { result ≡ width document01 n }
{
    for d in 1..POWERS {
        if n < TENS[d] {
            return d;
        }
    }
    POWERS
}

// The number n, written from `at` on, if it fits. The answer is the place after it.
// Kept: output and place side by side, and no Display: all of it is written at the place, or nothing (clause `written`); a struct with the
// `&mut` output in a field was tried, and no goal says what the lent slice holds afterwards.
pub fn write_number(out: &mut [u8], at: usize, n: u64) -> usize
    ensures value { result ≡ place_after out.old at (decimal document01 n) }
    ensures holds { out.new ≡ written out.old at (decimal document01 n) }
{
    let d = width_of(n);
    if out.len() < at || out.len() - at < d {
        return at;
    }
    write_digits(out, at, d, n);
    at + d
}

// The d low digits of n, written from `at` on.
#[tactic(auto, using(crate::proofs::Writing::stored_end, crate::proofs::Writing::stored_all))]
fn write_digits(out: &mut [u8], at: usize, d: usize, n: u64)
    requires { at + d ≤ length out.old }
    ensures { out.new ≡ over out.old at (low_digits d n) }
{
    let mut m = n;
    for k in (0..d).rev() {
        out[at + k] = b'0' + (m % 10) as u8;
        m /= 10;
    }
}

// Fixed bytes, written from `at` on, if they fit. The answer is the place after them.
pub fn write_fixed(out: &mut [u8], at: usize, p: &[u8]) -> usize
    ensures value { result ≡ place_after out.old at p.now }
    ensures holds { out.new ≡ written out.old at p.now }
{
    if out.len() < at || out.len() - at < p.len() {
        return at;
    }
    // Kept: with `copy_from_slice` an opening of two bytes and three numbers take 21.3 ns, with this loop 18.1.
    for i in 0..p.len() {
        out[at + i] = p[i];
    }
    at + p.len()
}
