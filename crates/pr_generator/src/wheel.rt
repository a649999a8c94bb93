//! The generator: its state in rows of vector lanes, turned in place.

ghost use Rattle.std.specs.Prelude.{◌≡◌, ℕ, List, length};
ghost use Rattle.pr_generator.specs.Rows.{state_of, AreRows};
ghost use Rattle.spin_model.specs.Seeding.{seeded};
ghost use Rattle.spin_model.specs.Stream.{advanced, draw, draws};

use crate::rows::{Rows, fill_by_shifts, fill_words, rows_of, turn_by, write_rows};
use crate::seeding::seed_words;
use std::marker::Model;

/// A Parisi-Rapuano generator (Phys. Lett. B 157, 301 (1985)). Contracts see its state, the 61
/// words of 32 bits at which its stream stands, oldest first.
#[derive(Drop)]
pub struct Wheel {
    rows: Rows,
}

impl Model for Wheel {
    ghost Value = { List ℕ };

    ghost view = { λ wheel. state_of wheel.rows };

    ghost invariant = { λ wheel. AreRows wheel.rows };
}

impl Wheel {
    /// The generator in this state, oldest word first.
    pub fn from_words(words: &[u32; 61]) -> Wheel
        ensures { result ≡ words.now }
    {
        Wheel {
            rows: rows_of(words),
        }
    }

    /// The generator with this label: its words are the first 61 of eight SHA-256 digests of the seed,
    /// the label and the digest's number.
    pub fn seeded(seed: u64, kind: u32, a: u32, b: u32, c: u32) -> Wheel
        ensures { result ≡ seeded seed kind a b c }
    {
        Wheel::from_words(&seed_words(seed, kind, a, b, c))
    }

    /// The next random number, by which the state moves on.
    pub fn draw(&mut self) -> u32
        ensures moved { self.new ≡ advanced self.old 1 }
        ensures drawn { result ≡ draw self.old 0 }
    {
        turn_by(&mut self.rows, 1)[0]
    }

    /// Writes the next random numbers, as many as the slice is long.
    #[inline(always)]
    pub fn fill(&mut self, out: &mut [u32])
        ensures moved { self.new ≡ advanced self.old (length out.old) }
        ensures drawn { out.new ≡ draws self.old (length out.old) }
    {
        if out.len() == 32 {
            // A plane of side 8. With the number of turns known no row is shifted, and no call is made.
            fill_by_shifts(&mut self.rows, 4, out);
        } else {
            fill_words(&mut self.rows, out);
        }
    }

    /// Writes the state, oldest word first.
    pub fn words(&self, out: &mut [u32; 61])
        ensures state { out.new ≡ self.now }
        ensures sized { length self.now ≡ 61 }
    {
        let mut all = [0u32; 64];
        write_rows(&self.rows, &mut all);
        out.copy_from_slice(&all[3..]);
    }

    /// A generator in the same state, which from then on goes its own way.
    pub fn copy(&self) -> Wheel
        ensures { result ≡ self.now }
    {
        Wheel { rows: self.rows }
    }
}
