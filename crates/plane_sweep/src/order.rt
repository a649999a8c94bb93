//! The order in which a sweep goes over the planes of both colours.

ghost use Rattle.std.specs.Prelude.{◌≡◌, ◌<◌};
ghost use Rattle.plane_sweep.specs.Order.{IsTurnAfter};
ghost use Rattle.spin_model.specs.Lattice.{IsLawfulSize};

/// A plane of a colour, when its turn comes in a sweep.
#[derive(Clone, Copy)]
pub struct Turn {
    /// 0 or 1.
    pub colour: u32,
    pub z: u32,
}

/// The plane with which a sweep begins.
#[inline(always)]
pub fn first_turn() -> Turn
    ensures { result ≡ (record { colour = 0; z = 0 }) }
{
    Turn { colour: 0, z: 0 }
}

/// The plane behind another in a sweep. Each plane of colour 1 follows as soon as those beside it of
/// colour 0 are swept, while its couplings are still near the processor. The first and the last plane lie
/// beside each other, so the last two turns are theirs.
#[inline(always)]
pub fn turn_after(turn: &Turn, size: u32) -> Turn
    requires lawful { IsLawfulSize size }
    requires within { turn.now.z < size }
    ensures { IsTurnAfter size turn.now result }
{
    if turn.colour == 0 && turn.z < 2 {
        Turn {
            colour: 0,
            z: turn.z + 1,
        }
    } else if turn.colour == 0 {
        Turn {
            colour: 1,
            z: turn.z - 1,
        }
    } else if turn.z + 2 < size {
        Turn {
            colour: 0,
            z: turn.z + 2,
        }
    } else {
        Turn {
            colour: 1,
            z: (turn.z + 1) % size,
        }
    }
}
