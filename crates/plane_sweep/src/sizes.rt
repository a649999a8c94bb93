//! The sizes of a lattice that have code of their own.

ghost use Rattle.std.specs.Prelude.{◌≡◌, ◌<◌};
ghost use Rattle.coupling_set.specs.CouplingWords.{AreCouplings};

use coupling_set::Couplings;

/// The side of the lattice, by code for a size, which is then a constant to the compiler, or for any where
/// that is 0.
#[inline(always)]
pub fn side_of<const SIZE: usize>(couplings: &Couplings) -> u32
    requires size { 0 < SIZE → couplings.now.size ≡ SIZE }
    ensures value { result ≡ couplings.now.size }
    ensures lawful { AreCouplings couplings.now }
{
    let size = couplings.size();
    if SIZE == 0 { size } else { SIZE as u32 }
}

/// Calls a function whose const parameter is a size: that of the lattice where it has code of its own,
/// and else 0, which stands for any.
#[macro_export]
macro_rules! by_size {
    ($size:expr, $function:ident($($word:expr),*)) => {
        match $size {
            6 => $function::<6>($($word),*),
            8 => $function::<8>($($word),*),
            10 => $function::<10>($($word),*),
            12 => $function::<12>($($word),*),
            14 => $function::<14>($($word),*),
            16 => $function::<16>($($word),*),
            18 => $function::<18>($($word),*),
            20 => $function::<20>($($word),*),
            22 => $function::<22>($($word),*),
            24 => $function::<24>($($word),*),
            26 => $function::<26>($($word),*),
            28 => $function::<28>($($word),*),
            30 => $function::<30>($($word),*),
            32 => $function::<32>($($word),*),
            34 => $function::<34>($($word),*),
            36 => $function::<36>($($word),*),
            38 => $function::<38>($($word),*),
            40 => $function::<40>($($word),*),
            48 => $function::<48>($($word),*),
            56 => $function::<56>($($word),*),
            64 => $function::<64>($($word),*),
            _ => $function::<0>($($word),*),
        }
    };
}
