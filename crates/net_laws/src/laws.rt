//! Laws of words. Each is a function that computes nothing, and its contract is the law.
ghost use Rattle.net_laws.specs.Laws.{EntailedWithin, FinalWordsAreOutputs, StrataAtRest, WordsOnWay, WordsRise};

/// Where words rise, the store that they are rises.
pub fn words_rise_law()
    ensures { WordsRise }
{}

/// What lies in words is entailed by the store that they are.
pub fn entailed_law()
    ensures { EntailedWithin }
{}

/// The output of a net is the store of its final words.
pub fn final_words_law()
    ensures { FinalWordsAreOutputs }
{}

/// Words below the final ones in which each leaf that they run of the lower strata has told are final there.
pub fn rest_law()
    ensures { StrataAtRest }
{}

/// Words between the input and the final ones are on the way of settling.
pub fn way_law()
    ensures { WordsOnWay }
{}
