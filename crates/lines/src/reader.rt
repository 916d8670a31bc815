// A text and the place up to which it was read. A contract sees the bytes that are left.
ghost use Rattle.std.specs.Prelude.{◌≡◌, ◌<◌, ℕ, length, take, drop, OnErr};
ghost use Rattle.definitions.specs.Lists.{empty};
ghost use Rattle.definitions.specs.Limits.{document01};
ghost use Rattle.text.specs.Meaning.{reading, line_into};

use crate::numbers;
use std::marker::Model;
use text::refusal::Refusal;

#[derive(Clone, Drop)]
pub struct Reader<'a> {
    text: &'a [u8],
    at: usize,
}

impl<'a> Model for Reader<'a> {
    ghost use Rattle.std.specs.Prelude.{List, ℕ, drop};

    ghost Value = { List ℕ };

    ghost view = { λ r. drop r.at r.text.now };
}

impl<'a> Reader<'a> {
    // A text, from its front on.
    pub fn new(text: &'a [u8]) -> Reader<'a>
        ensures { result ≡ text.now }
    {
        Reader { text, at: 0 }
    }

    // No byte is left.
    #[tactic(auto, using(crate::proofs::LineLaws::at_end))]
    pub fn is_at_end(&self) -> bool
        ensures { result ≡ empty self.now }
    {
        self.text.len() <= self.at
    }

    // The bytes that are left.
    pub fn rest(&self) -> &'a [u8]
        ensures { result.now ≡ self.now }
    {
        self.text.get(self.at..).unwrap_or(&[])
    }

    // The next line: its opening and k numbers, kept at the front of `vals`.
    // Kept: `k` beside `vals`: the clauses and the edit cell_too_few tell of a slice that has fewer cells.
    #[tactic(auto, using(crate::proofs::LineLaws::line_open, crate::proofs::LineLaws::line_no, crate::proofs::LineLaws::line_unfit))]
    pub fn line(&mut self, opening: &[u8], k: usize, vals: &mut [u64]) -> Result<(), Refusal>
        ensures read { reading self.new (take k vals.new) result ≡ line_into document01 (length vals.old) opening.now k self.old }
        ensures rest { (drop k vals.new ≡ drop k vals.old) × (length vals.old < k → vals.new ≡ vals.old) }
        ensures kept { OnErr result (self.new ≡ self.old) }
        ensures part { (n : ℕ) × (self.new ≡ drop n self.old) }
    {
        if vals.len() < k {
            return Err(Refusal::NoRoom);
        }
        let p = text::read_fixed(self.text, self.at, opening)?;
        self.at = numbers::read_numbers(self.text, p, k, vals)?;
        Ok(())
    }
}
