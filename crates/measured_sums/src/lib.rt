//! What `measure` sums up over a run, as definitions, and public laws over them: no code.
#![tactic(auto)]

mod bounds;
mod fields;
mod runs;

pub use bounds::{
    correlations_are_bounded, epochs_are_few, greatest_sums_fit, links_are_bounded,
    overlaps_are_at_most_one, plane_sums_are_bounded, planes_are_equal, sums_are_at_most,
};
pub use fields::{
    classes_add_up, distances_add_up, distances_turn, overlaps_are_even, planes_add_up,
    total_is_overlap,
};
pub use runs::{
    bins_are_between, bins_are_digits, bins_cover_the_run, distances_of_bins, epochs_add_up,
    histograms_add_up, number_is_epochs, parts_add_up, rows_have_the_same, sums_are_bounded,
    sums_begin, sums_grow,
};
