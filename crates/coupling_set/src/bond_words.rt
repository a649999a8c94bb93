//! The words of the bonds: direction by direction, and in each the sites in compact order. So each
//! plane of a colour and direction stands in one piece, and behind it a cache line is free.

ghost use Rattle.std.specs.Prelude.{◌≡◌, ◌≢◌, ℕ, ◌+◌, ◌*◌, ◌<◌, ◌≤◌, length};
ghost use Rattle.coupling_set.specs.CouplingWords.{bonds_of, place_of};
ghost use Rattle.coupling_set.specs.KeptWords.{free_words, head_words, kept_place, kept_count, kept_on, plane_number};
ghost use Rattle.spin_model.specs.Lattice.{volume, bond_count, half_plane, IsLawfulSize};
ghost use Rattle.spin_model.specs.Words.{is_set};

use lattice_geometry::Lattice;

/// The words that are free behind each plane: a cache line of 64 bytes. At sizes 32 and 64 a plane
/// is a multiple of a page, so without them all planes would begin in one set of the first cache,
/// and a sweep reads six side by side.
pub(crate) const FREE_WORDS: u32 = 8;

/// The words that are free before all planes. glibc gives a block of 128 kilobytes and more pages of
/// its own, and keeps 16 bytes before it: with these words that is a cache line. So each plane begins
/// at one, where half of all vectors of 32 bytes would lie across two (a tenth of the sweep).
pub(crate) const HEAD_WORDS: u32 = 6;

// And behind all planes: so many that the block is as large as that at each size.
const TAIL_WORDS: u32 = 16384;

/// The number of words, the free ones too: L planes for each of three directions and two colours.
pub(crate) fn word_count(lattice: &Lattice) -> usize
    ensures value { result ≡ kept_count lattice.now }
    ensures lawful { IsLawfulSize lattice.now }
{
    let size = lattice.size();
    let planes = 6 * size * (size * (size / 2) + FREE_WORDS);
    (HEAD_WORDS + planes + TAIL_WORDS) as usize
}

/// Where the words of a colour, a coordinate z and a direction `d` begin. By numbers as wide as an
/// address, so that a compiler that knows the size reaches several planes from one of them.
#[inline]
pub(crate) fn plane_start(size: usize, colour: u32, z: u32, d: u32) -> usize
    requires lawful { IsLawfulSize size }
    requires colour { colour < 2 }
    requires plane { z < size }
    requires direction { d < 3 }
    ensures value { result ≡ head_words + plane_number size d colour z * (half_plane size + free_words) }
    ensures within { result + half_plane size ≤ kept_count size }
{
    let plane = (2 * d as usize + colour as usize) * size + z as usize;
    HEAD_WORDS as usize + plane * (size * (size / 2) + FREE_WORDS as usize)
}

/// Where the word of the bond from a site in direction `d` is kept.
pub(crate) fn place(lattice: &Lattice, site: u32, d: u32) -> usize
    requires site { site < volume lattice.now }
    requires direction { d < 3 }
    ensures value { result ≡ kept_place lattice.now (place_of lattice.now site d) }
    ensures within { result < kept_count lattice.now }
    ensures lawful { IsLawfulSize lattice.now }
{
    let size = lattice.size();
    let (x, y, z) = lattice.coordinates(site);
    let start = plane_start(size as usize, lattice.colour(site), z, d);
    start + (y * (size / 2) + x / 2) as usize
}

/// Writes the word of one bond: J of sample b is -1 where bit b is set.
pub(crate) fn write_word(words: &mut [u64], lattice: &Lattice, bond: u32, word: u64)
    requires sized { length words.old ≡ kept_count lattice.now }
    requires bond { bond < bond_count lattice.now }
    ensures written { (b : ℕ) → bonds_of (kept_on lattice.now words.new) b bond ≡ is_set word b }
    ensures others { (b n : ℕ) → n < bond_count lattice.now → n ≢ bond
        → bonds_of (kept_on lattice.now words.new) b n ≡ bonds_of (kept_on lattice.now words.old) b n }
{
    words[place(lattice, bond / 3, bond % 3)] = word;
}
