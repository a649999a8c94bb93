//! The sums of a report.

ghost use Rattle.std.specs.Prelude.{◌≡◌, ◌<◌, ◌≤◌};
ghost use Rattle.sample_average.specs.Averages.{rows_without, slot_rows, sums_of};
ghost use Rattle.sample_average.specs.LawfulReport.{IsLawfulHeader};

use crate::header::Header;
use crate::row::Row;
use crate::sums::Sums;
use plain_list::Items;
use std::marker::Model;

/// The rows of a lawful report with their sums: of each temperature slot over all its rows, and
/// over those of each block of samples. Contracts see the header, the rows and the number of blocks.
#[derive(Drop)]
pub struct Averages {
    pub(crate) header: Header,
    pub(crate) rows: Items<Row>,
    pub(crate) blocks: u32,
    // Slot by slot.
    pub(crate) totals: Items<Sums>,
    // Slot by slot, block by block.
    pub(crate) parts: Items<Sums>,
}

impl Model for Averages {
    ghost use Rattle.sample_average.specs.Averages.{AveragesView};

    ghost Value = { AveragesView };

    ghost use Rattle.sample_average.specs.Tallies.{averages_view, KeepsAverages};

    ghost view = { averages_view };

    ghost invariant = { KeepsAverages };
}

impl Averages {
    /// The numbers of the report's first line.
    pub fn header(&self) -> Header
        ensures value { result ≡ self.now.header }
        ensures lawful { IsLawfulHeader result }
    {
        self.header
    }

    /// The rows of the report in their order: epoch, sample, slot.
    pub fn rows(&self) -> &[Row]
        ensures { result.now ≡ self.now.rows }
    {
        self.rows.as_slice()
    }

    /// The number of blocks of samples, at most that of samples.
    pub fn blocks(&self) -> u32
        ensures value { result ≡ self.now.blocks }
        ensures few { result ≤ self.now.header.samples }
    {
        self.blocks
    }

    /// The sums over all rows of a slot.
    pub fn sums(&self, slot: u32) -> Sums
        requires { slot < self.now.header.slots }
        ensures { result ≡ sums_of (slot_rows self.now slot) }
    {
        *self.totals.at(slot as usize)
    }

    /// The sums over the rows of a slot of the samples outside a block.
    pub fn sums_without(&self, slot: u32, block: u32) -> Sums
        requires slot { slot < self.now.header.slots }
        requires block { block < self.now.blocks }
        ensures { result ≡ sums_of (rows_without self.now slot block) }
    {
        let part = *self.parts.at((slot * self.blocks + block) as usize);
        self.totals.at(slot as usize).without(part)
    }
}
