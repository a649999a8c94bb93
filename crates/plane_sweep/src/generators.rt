//! Copies of generators whose words are seen to be words of 32 bits.

ghost use Rattle.std.specs.Prelude.{◌≡◌};
ghost use Rattle.spin_model.specs.Seeding.{seeded};
ghost use Rattle.spin_model.specs.Words.{AreGeneratorWords};

use pr_generator::Wheel;

/// A generator in the same state.
pub(crate) fn copied(wheel: &Wheel) -> Wheel
    ensures same { result ≡ wheel.now }
    ensures generator { AreGeneratorWords wheel.now }
{
    let mut words = [0u32; 61];
    wheel.words(&mut words);
    from_words(&words)
}

/// The generator with this label.
pub(crate) fn seeded(seed: u64, kind: u32, a: u32, b: u32, c: u32) -> Wheel
    ensures same { result ≡ seeded seed kind a b c }
    ensures generator { AreGeneratorWords result }
{
    copied(&Wheel::seeded(seed, kind, a, b, c))
}

fn from_words(words: &[u32; 61]) -> Wheel
    ensures same { result ≡ words.now }
    ensures generator { AreGeneratorWords words.now }
{
    // The words are seen to be of 32 bits where the array is read.
    let _ = words.as_slice();
    Wheel::from_words(words)
}
