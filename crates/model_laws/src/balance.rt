//! Draws that are counted, Boltzmann's weights and detailed balance: each law is the contract of a function with an empty
//! body.

ghost use Rattle.model_laws.specs.Weights.{WeightsAreBoltzmann};
ghost use Rattle.model_laws.specs.Balance.{HeatBathDraws, MetropolisDraws, UpdatesTurnOrKeep, MetropolisBalances, HeatBathBalances, ExactThresholdsBalance, UpdatesKeepBoltzmann, OppositeFieldsAddUp};
ghost use Rattle.model_laws.specs.Stationary.{BoltzmannStays, BoltzmannNearlyStays};

/// Of the 2^32 draws, heat bath makes a spin +1 by as many as its threshold says, and -1 by all others.
pub fn heat_bath_draws()
    ensures { HeatBathDraws }
{}

/// Metropolis turns a spin with up to three satisfied bonds by every draw, and one with more by as
/// many draws as the threshold says.
pub fn metropolis_draws()
    ensures { MetropolisDraws }
{}

/// The update of a site turns its spin or changes nothing.
pub fn updates_turn_or_keep()
    ensures { UpdatesTurnOrKeep }
{}

/// The whole-number weights are Boltzmann's: an energy greater by 4 m is worth m factors a / b, which
/// stands for exp(-4 beta).
pub fn weights_are_boltzmann()
    ensures { WeightsAreBoltzmann }
{}

/// Metropolis is in detailed balance at every site of every configuration, to within the rounding of
/// the threshold times the greater weight.
pub fn metropolis_balances()
    ensures { MetropolisBalances }
{}

/// Heat bath is in detailed balance, to within the rounding of the threshold times the two weights.
pub fn heat_bath_balances()
    ensures { HeatBathBalances }
{}

/// Where the threshold that decides is exact, detailed balance holds exactly.
pub fn exact_thresholds_balance()
    ensures { ExactThresholdsBalance }
{}

/// And the update of a site leaves Boltzmann's distribution as it is.
pub fn updates_keep_boltzmann()
    ensures { UpdatesKeepBoltzmann }
{}

/// So do updates of any sites one after the other, by independent draws: of a half sweep, or of sweeps.
pub fn boltzmann_stays()
    ensures { BoltzmannStays }
{}

/// With rounded thresholds each update changes Boltzmann's weights by at most q parts of 2^32.
pub fn boltzmann_nearly_stays()
    ensures { BoltzmannNearlyStays }
{}

/// Exact heat bath thresholds of opposite fields add up to 2^32, in the ratio of the weights.
pub fn opposite_fields_add_up()
    ensures { OppositeFieldsAddUp }
{}
