//! One replica of one disorder sample.

use plain_list::Items;
use pr_generator::Wheel;

/// One of the two real replicas of a temperature slot, in one disorder sample.
#[derive(Drop)]
pub struct PlainCopy {
    /// V spins in the order of the sites, true for +1.
    pub spins: Items<bool>,
    /// 2L generators: the one at `colour * L + z` serves the sites of that colour in plane z.
    pub wheels: Items<Wheel>,
    /// The replica label, the number of the slot where these spins began.
    pub replica: u8,
}
