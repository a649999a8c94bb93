//! The energy and the cost of turning a spin: each law is the contract of a function with an empty body.

ghost use Rattle.model_laws.specs.Energies.{EnergyIsHamiltonian, UnsatisfiedAreBonds, TurningCosts, TurningExchangesBonds};

/// The energy of the records, twice the unsatisfied bonds less all bonds, is minus the sum over all
/// bonds of J s s', with couplings and spins as signed numbers.
pub fn energy_is_hamiltonian()
    ensures { EnergyIsHamiltonian }
{}

/// At most all bonds are unsatisfied.
pub fn unsatisfied_are_bonds()
    ensures { UnsatisfiedAreBonds }
{}

/// Turning the spin at a site changes the energy by 4 k - 12, where k of its six bonds are satisfied.
pub fn turning_costs()
    ensures { TurningCosts }
{}

/// Turning a spin leaves the number of its aligned neighbours, and of its six bonds satisfies those
/// that it found unsatisfied.
pub fn turning_exchanges_bonds()
    ensures { TurningExchangesBonds }
{}
