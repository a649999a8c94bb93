//! Room for the sums over planes.

ghost use Rattle.std.specs.Prelude.{◌≡◌, ℕ, ◌≤◌, IfOk, length};

use crate::counts::Counts;
use crate::families::FAMILIES;
use crate::projections::{Projections, Sheets};
use glass_edges::NoMemory;
use plain_list::Items;
use std::alloc::Global;
use std::marker::Model;

/// Room for the overlap's sums along lines and over planes, 1.6 MB; no contract sees what is in it.
#[derive(Drop)]
pub struct Planes3 {
    pub(crate) lines: Projections,
    pub(crate) sheets: Sheets,
    pub(crate) totals: Items<Counts<13>>,
}

impl Model for Planes3 {
    ghost use Rattle.plane_sums.specs.Rooms.{IsRoom};

    ghost Value = { Unit {0} };

    ghost view = { λ _. tt };

    ghost invariant = { IsRoom };
}

impl Planes3 {
    /// Room for any lattice.
    ///
    /// # Errors
    ///
    /// Refuses only for lack of memory.
    pub fn none(alloc: Global) -> Result<Planes3, NoMemory> {
        Ok(Planes3 {
            lines: Projections {
                along_x: empty_lines(alloc, GREATEST_SIDE)?,
                along_y: empty_lines(alloc, GREATEST_SIDE)?,
                along_z: empty_lines(alloc, GREATEST_SIDE)?,
            },
            sheets: Sheets {
                front: empty_rows(alloc)?,
                back: empty_rows(alloc)?,
                turned: empty_rows(alloc)?,
            },
            totals: empty_lines(alloc, FAMILIES)?,
        })
    }
}

const GREATEST_SIDE: usize = 64;

// Lines without a count.
fn empty_lines<const W: usize>(alloc: Global, count: usize) -> Result<Items<Counts<W>>, NoMemory>
    requires { count ≤ 64 }
    ensures { IfOk result (λ lines. length lines ≡ count) }
{
    let mut lines = Vec::with_capacity(alloc, count)?;
    'lines: for line in 0..count {
        lines.push(Counts {
            planes: [[0u64; 128]; W],
        })?;
    }
    Ok(Items::of(lines))
}

// 64 rows without a bit.
fn empty_rows(alloc: Global) -> Result<Items<[u64; 64]>, NoMemory>
    ensures { IfOk result (λ rows. length rows ≡ 64) }
{
    Ok(Items::of(vec![in alloc; [0u64; 64]; GREATEST_SIDE]?))
}
