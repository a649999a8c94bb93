//! What holds of the definitions: the law is the contract of a function with an empty body.

ghost use Rattle.sample_average.specs.ReadReport.{AveragesAreOfTheReport};

/// What is read of any bytes is the one lawful report that they spell; a refusal is due by the
/// grammar, and its line is the first that no lawful report continues.
pub fn averages_are_of_the_report()
    ensures { AveragesAreOfTheReport }
{}
