// C and D lines: rows of numbers, each with its own number in front.
#![tactic(auto)]

ghost use Rattle.std.specs.Prelude.{◌≡◌, ℕ, length, drop, OnErr};
ghost use Rattle.definitions.specs.Limits.{document01};
ghost use Rattle.text.specs.Meaning.{reading};
ghost use Rattle.rows.specs.Rows.{rows, rows_into};

use lines::reader::Reader;
use text::refusal::Refusal;

mod row;

// C lines, with run times, or D lines, with delays.
#[derive(Clone, Copy, Debug, PartialEq, Eq)]
pub enum Kind {
    Runs,
    Delays,
}

// n lines of k numbers, kept as rows from the front of `mem` on; 8 if they are too narrow for their kind, or do not fit it.
// Kept: `opening` beside `kind`, and `k` beside `mem`: the promise is for each opening and each width (clause `rows_into`).
pub fn read_rows(
    reader: &mut Reader,
    opening: &[u8],
    kind: Kind,
    n: usize,
    k: usize,
    mem: &mut [u64],
) -> Result<(), Refusal>
    ensures read { reading reader.new (rows k n mem.new) result ≡ rows_into document01 (length mem.old) kind opening.now k n reader.old }
    ensures kept { OnErr result (reader.new ≡ reader.old) }
    ensures part { (n : ℕ) × (reader.new ≡ drop n reader.old) }
{
    if row::is_wide(kind, n, k) && n <= mem.len() / k {
        let mut rest = Reader::new(reader.rest());
        row::fill_rows(&mut rest, opening, kind, n, k, mem)?;
        *reader = rest;
        return Ok(());
    }
    Err(Refusal::NoRoom)
}
