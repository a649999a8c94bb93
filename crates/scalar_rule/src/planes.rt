//! The half sweep of one checkerboard colour, one spin at a time.

ghost use Rattle.std.specs.Prelude.{◌≡◌, ◌+◌, ◌*◌, ◌<◌, length, slice_index};
ghost use Rattle.spin_model.specs.Lattice.{volume, half_plane, place_in_plane};
ghost use Rattle.spin_model.specs.Steps.{steps};
ghost use Rattle.scalar_rule.specs.Sweep as model;
ghost use Rattle.scalar_rule.specs.SlotRules.{dynamics_with};
ghost use Rattle.scalar_rule.specs.Replica.{configuration_of};

use crate::bonds::Bonds;
use crate::plain_copy::PlainCopy;
use crate::spin_rule::new_spin;
use lattice_geometry::Lattice;
use spin_model::GREATEST_HALF_PLANE;
use threshold_table::SlotRule;

/// What a half sweep depends on: the lattice, its bonds, the spin rule and the colour swept.
#[derive(Drop)]
struct HalfSweep<'a, B> {
    lattice: &'a Lattice,
    bonds: &'a B,
    rule: &'a SlotRule,
    colour: u32,
}

/// The half sweep of a colour: its sites in rising order, one draw a site.
pub(crate) fn half_sweep_by<B: Bonds>(
    replica: &mut PlainCopy,
    lattice: &Lattice,
    bonds: &B,
    rule: &SlotRule,
    colour: u32,
)
    requires size { B.size bonds.now ≡ lattice.now }
    requires spins { length replica.old.spins ≡ volume lattice.now }
    requires wheels { length replica.old.wheels ≡ 2 * lattice.now }
    requires colour { colour < 2 }
    ensures swept { configuration_of replica.new ≡ model.half_sweep
        (dynamics_with lattice.now rule.now (B.negative bonds.now))
        colour
        (configuration_of replica.old) }
    ensures spins { length replica.new.spins ≡ length replica.old.spins }
    ensures wheels { length replica.new.wheels ≡ length replica.old.wheels }
    ensures label { replica.new.replica ≡ replica.old.replica }
{
    let mut draws = [0u32; GREATEST_HALF_PLANE];
    let sweep = HalfSweep {
        lattice,
        bonds,
        rule,
        colour,
    };
    half_sweep_with(replica, &sweep, &mut draws);
}

// The same, with a buffer for the draws of a plane.
fn half_sweep_with<B: Bonds>(replica: &mut PlainCopy, sweep: &HalfSweep<B>, draws: &mut [u32])
    requires size { B.size sweep.now.bonds.now ≡ sweep.now.lattice.now }
    requires spins { length replica.old.spins ≡ volume sweep.now.lattice.now }
    requires wheels { length replica.old.wheels ≡ 2 * sweep.now.lattice.now }
    requires colour { sweep.now.colour < 2 }
    requires room { length draws.old ≡ GREATEST_HALF_PLANE }
    ensures swept { configuration_of replica.new ≡ model.half_sweep
        (dynamics_with sweep.now.lattice.now sweep.now.rule.now (B.negative sweep.now.bonds.now))
        sweep.now.colour
        (configuration_of replica.old) }
    ensures spins { length replica.new.spins ≡ length replica.old.spins }
    ensures wheels { length replica.new.wheels ≡ length replica.old.wheels }
    ensures label { replica.new.replica ≡ replica.old.replica }
{
    let size = sweep.lattice.size();
    let count = (size * (size / 2)) as usize;
    let plane_draws = &mut draws[..count];
    'planes: for z in 0..size {
        // Each site of the colour has a draw, used or not, so that all samples can share it.
        replica
            .wheels
            .at_mut((sweep.colour * size + z) as usize)
            .fill(plane_draws);
        visit_plane(replica.spins.as_mut_slice(), sweep, plane_draws, z);
    }
}

// The sites of plane z in rising order.
fn visit_plane<B: Bonds>(spins: &mut [bool], sweep: &HalfSweep<B>, draws: &[u32], z: u32)
    requires size { B.size sweep.now.bonds.now ≡ sweep.now.lattice.now }
    requires spins { length spins.old ≡ volume sweep.now.lattice.now }
    requires draws { length draws.now ≡ half_plane sweep.now.lattice.now }
    requires plane { z < sweep.now.lattice.now }
    ensures { spins.new ≡ steps
        (model.visit
        (dynamics_with sweep.now.lattice.now sweep.now.rule.now (B.negative sweep.now.bonds.now))
        (λ i. slice_index draws.now (place_in_plane sweep.now.lattice.now i))
        sweep.now.colour)
        (z * (sweep.now.lattice.now * sweep.now.lattice.now))
        (sweep.now.lattice.now * sweep.now.lattice.now)
        spins.old }
{
    let size = sweep.lattice.size();
    let plane = size * size;
    'sites: for k in 0..plane {
        visit(spins, sweep, draws, z * plane + k);
    }
}

// The new spin of one site, where it has the colour.
#[tactic(auto, unfolding(crate::specs::Sweep::visit))]
fn visit<B: Bonds>(spins: &mut [bool], sweep: &HalfSweep<B>, draws: &[u32], site: u32)
    requires size { B.size sweep.now.bonds.now ≡ sweep.now.lattice.now }
    requires spins { length spins.old ≡ volume sweep.now.lattice.now }
    requires draws { length draws.now ≡ half_plane sweep.now.lattice.now }
    requires site { site < volume sweep.now.lattice.now }
    ensures { spins.new ≡ model.visit
        (dynamics_with sweep.now.lattice.now sweep.now.rule.now (B.negative sweep.now.bonds.now))
        (λ i. slice_index draws.now (place_in_plane sweep.now.lattice.now i))
        sweep.now.colour
        site
        spins.old }
{
    if sweep.lattice.colour(site) == sweep.colour {
        let draw = draws[place(sweep.lattice, site) as usize];
        spins[site as usize] = new_spin(sweep.lattice, sweep.bonds, sweep.rule, spins, draw, site);
    }
}

// The number of the site's draw in its plane.
fn place(lattice: &Lattice, site: u32) -> u32
    requires { site < volume lattice.now }
    ensures value { result ≡ place_in_plane lattice.now site }
    ensures within { result < half_plane lattice.now }
{
    let half = lattice.size() / 2;
    let (x, y, _) = lattice.coordinates(site);
    y * half + x / 2
}
