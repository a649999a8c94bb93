//! The exchange: its detailed balance, and that it trades configurations. Each law is the contract of a function with an empty body.

ghost use Rattle.model_laws.specs.ExchangeBalance.{SwappingDraws, ExchangeBalances, ExactEntriesBalance};
ghost use Rattle.model_laws.specs.Trading.{ExchangesTrade};

/// Of the 2^32 draws, a pair swaps by every draw where the colder slot has no fewer unsatisfied bonds,
/// and by as many draws as the entry of the gap says where it has fewer.
pub fn swapping_draws()
    ensures { SwappingDraws }
{}

/// The exchange of a pair is in detailed balance, each slot weighted at its own temperature, to within
/// the rounding of the entry times the greater weight.
pub fn exchange_balances()
    ensures { ExchangeBalances }
{}

/// Where the entry is exact, detailed balance holds exactly.
pub fn exact_entries_balance()
    ensures { ExactEntriesBalance }
{}

/// After the exchange of an epoch the slots have the spins and labels that they had before, each once,
/// and their own generators.
pub fn exchanges_trade()
    ensures { ExchangesTrade }
{}
