// Rows of numbers, read and checked one after another.
ghost use Rattle.std.specs.Prelude.{◌≡◌, List, [], ℕ, ◌+◌, ◌*◌, ◌≤◌, ◌<◌, length, take, drop};
ghost use Rattle.definitions.specs.Lists.{any};
ghost use Rattle.definitions.specs.Limits.{document01};
ghost use Rattle.definitions.specs.Text.{line};
ghost use Rattle.text.specs.Meaning.{reading, due_of, ruled};
ghost use Rattle.rows.specs.Rows.{rows, rule_of, row_lines, stray_of, wide};
ghost use Rattle.rows.specs.declared.Kind.TheVariants.{Delays};

use crate::Kind;
use lines::reader::Reader;
use text::limits::{DELAY, RUN_TIME};
use text::refusal::Refusal;

// n rows of k numbers are wide enough for their kind.
pub fn is_wide(kind: Kind, n: usize, k: usize) -> bool
    ensures { result ≡ wide kind k n }
{
    match kind {
        Kind::Runs => 0 < k,
        Kind::Delays => n < k,
    }
}

// Some number of a row, after its first, is outside the range of its kind.
fn off_range(kind: Kind, row: &[u64]) -> bool
    requires { 0 < length row.now }
    ensures { result ≡ any (stray_of document01 kind) (drop 1 row.now) }
{
    let (low, high) = match kind {
        Kind::Runs => (1, RUN_TIME),
        Kind::Delays => (0, DELAY),
    };
    row[1..].iter().any(|x| text::outside(low, high, *x))
}

// Whether row i is refused.
fn check_row(kind: Kind, i: usize, row: &[u64]) -> Result<(), Refusal>
    requires { (0 < length row.now) × (kind ≡ Delays → i + 1 < length row.now) }
    ensures { (seen : List (List ℕ)) → length seen ≡ i → due_of result ≡ rule_of document01 kind seen row.now }
{
    if row[0] != i as u64 {
        return Err(Refusal::BadLine);
    }
    if off_range(kind, row) {
        return Err(Refusal::OutOfRange);
    }
    match kind {
        Kind::Delays if row[i + 1] != 0 => Err(Refusal::OwnDelay),
        _ => Ok(()),
    }
}

// Row i, the next line: its k numbers then stand at the front of `cells`.
fn read_row(
    reader: &mut Reader,
    opening: &[u8],
    kind: Kind,
    i: usize,
    k: usize,
    cells: &mut [u64],
) -> Result<(), Refusal>
    requires { (0 < k) × (k ≤ length cells.old) × (kind ≡ Delays → i + 1 < k) }
    ensures { (seen : List (List ℕ)) → length seen ≡ i
        → reading reader.new (take k cells.new) result ≡ ruled (line document01 opening.now k) (rule_of document01 kind) seen reader.old }
{
    reader.line(opening, k, cells)?;
    check_row(kind, i, &cells[..k])
}

// n lines of k numbers, kept as rows from the front of `mem` on.
pub fn fill_rows(
    reader: &mut Reader,
    opening: &[u8],
    kind: Kind,
    n: usize,
    k: usize,
    mem: &mut [u64],
) -> Result<(), Refusal>
    requires { (0 < k) × (n * k ≤ length mem.old) × (kind ≡ Delays → n < k) }
    ensures { reading reader.new (rows k n mem.new) result ≡ row_lines document01 kind opening.now k n [] reader.old }
{
    for i in 0..n {
        let a = i * k;
        read_row(reader, opening, kind, i, k, &mut mem[a..])?;
    }
    Ok(())
}
