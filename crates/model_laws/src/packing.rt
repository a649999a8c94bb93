//! One sample among the 64 of a packed state: the law is the contract of a function with an empty body.

ghost use Rattle.model_laws.specs.Packing.{OtherSamplesDontMatter};

/// A sample's state and records at every epoch depend on no other sample of its packed state, and on
/// no coupling of another.
pub fn other_samples_dont_matter()
    ensures { OtherSamplesDontMatter }
{}
