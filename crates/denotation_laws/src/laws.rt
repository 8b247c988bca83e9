//! The laws of values and stores as closed sets of tokens, each proved as the contract of a function.
ghost use Rattle.denotation_laws.specs.Laws.{StoresHaveTokens, TokensHaveOneStore, TokensHaveOneValue, ValuesHaveTokens};

/// The values of a cell are its closed sets of tokens: what tokens entail is what exactly one value stands for, and each
/// value stands for what some tokens entail.
pub fn closed_sets_law()
    ensures one { TokensHaveOneValue }
    ensures each { ValuesHaveTokens }
{}

/// Stores are the closed sets of tokens of named cells: what such tokens entail is what exactly one store stands for, and
/// each store stands for what some tokens entail.
pub fn closed_stores_law()
    ensures one { TokensHaveOneStore }
    ensures each { StoresHaveTokens }
{}
