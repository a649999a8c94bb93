//! Counts, comparisons, sums and differences of the numbers of 64 samples in bit planes: whole
//! words at a time, by full adders and a ripple over the planes, with no branch on what a sample
//! holds.
#![tactic(auto)]

pub use addition::{add, add_bit, add_count, full_adder};
pub use comparison::{equals_const, less, less_by, less_const};
pub use count::count6;
pub use subtraction::subtract;

mod addition;
mod comparison;
mod count;
mod subtraction;
