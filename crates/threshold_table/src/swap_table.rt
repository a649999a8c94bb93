//! The swap table: the thresholds of the replica exchange, by pair of neighbouring slots.

ghost use Rattle.std.specs.Prelude.{◌≡◌, ℕ, ◌<◌, ◌≤◌, List, IsTrue, IfOk, length};
ghost use Rattle.std.specs.List.{list_all};
ghost use Rattle.spin_model.specs.Limits.{certain};
ghost use Rattle.threshold_table.specs.Tables.{entry_count, swap_threshold, are_thresholds, IsLawfulSwaps};

use glass_edges::NoMemory;
use plain_list::Items;
use std::alloc::Global;
use std::marker::Model;

/// The thresholds of the replica exchange for at most 31 pairs of neighbouring temperature slots,
/// each a probability times 2^32. Pair k is slots k and k + 1. Contracts see for each pair the list
/// of its entries, of which entry j is for the gap 2(j + 1) of unsatisfied bonds.
#[derive(Drop)]
pub struct SwapTable {
    rows: Items<Items<u64>>,
}

impl Model for SwapTable {
    ghost use Rattle.std.specs.Prelude.{List, ℕ};

    ghost Value = { List (List ℕ) };

    ghost view = { λ t. t.rows };

    ghost use Rattle.threshold_table.specs.Tables.{IsLawfulSwaps};

    ghost invariant = { λ t. IsLawfulSwaps t.rows };
}

impl SwapTable {
    /// A table of given rows with N entries each, pair 0 first.
    ///
    /// # Errors
    ///
    /// Only where memory runs out.
    pub fn from_rows<const N: usize>(
        alloc: Global,
        rows: &[[u64; N]],
    ) -> Result<SwapTable, NoMemory>
        requires few { length rows.now ≤ 31 }
        requires some { 1 ≤ N }
        requires short { N ≤ 4096 }
        requires lawful { IsTrue (list_all are_thresholds rows.now) }
        ensures { IfOk result (λ t. t ≡ rows.now) }
    {
        let mut kept = Vec::new(alloc);
        'rows: for row in rows {
            kept.push(list_of(alloc, row)?)?;
        }
        Ok(SwapTable {
            rows: Items::of(kept),
        })
    }

    /// A table of given lists of entries.
    pub(crate) fn of_lists(rows: Vec<Items<u64>>) -> SwapTable
        requires { IsLawfulSwaps rows.items }
        ensures { result ≡ rows.items }
    {
        SwapTable {
            rows: Items::of(rows),
        }
    }

    /// The number of pairs, one fewer than there are slots.
    pub fn pairs(&self) -> u32
        ensures value { result ≡ length self.now }
        ensures lawful { IsLawfulSwaps self.now }
    {
        self.rows.len() as u32
    }

    /// The number of entries of a pair.
    pub fn entries(&self, pair: u32) -> u32
        requires { pair < length self.now }
        ensures value { result ≡ entry_count self.now pair }
        ensures some { 1 ≤ result }
        ensures short { result ≤ 4096 }
    {
        self.rows.at(pair as usize).len() as u32
    }

    /// The threshold of a pair's entry, and 0 past the entries that the pair has.
    #[inline]
    pub fn threshold(&self, pair: u32, entry: u32) -> u64
        requires { pair < length self.now }
        ensures value { result ≡ swap_threshold self.now pair entry }
        ensures limited { result ≤ certain }
    {
        let row = self.rows.at(pair as usize).as_slice();
        let entry = entry as usize;
        if entry < row.len() { row[entry] } else { 0 }
    }
}

fn list_of<const N: usize>(alloc: Global, row: &[u64; N]) -> Result<Items<u64>, NoMemory>
    ensures value { IfOk result (λ v. v ≡ row.now) }
    ensures sized { length row.now ≡ N }
{
    Ok(Items::of(Vec::from_slice(alloc, row.as_slice())?))
}
