//! Laws of the texts. Each is a function that computes nothing, and its contract is the law.
ghost use Rattle.std.specs.Prelude.{◌≡◌};
ghost use Rattle.certificate_text.specs.Laws.{EntriesAreLines, EntriesReadBack, GivenLinesAreGood, GivenOutsAreGood, InputsReadBack, LinesGiveInputs, LinesGiveOneInput, LinesGiveOneStore, LinesGiveStores, LocalTokensReadBack, LocalTokensSayOne, LocalValuesReadBack, NamesReadBack, OutsReadBack, RunsReadBack};
ghost use Rattle.certificate_text.specs.Limits.{longest_entry_line};

use crate::limits::LONGEST_ENTRY_LINE;

/// The name of a local cell reads back as it was written, where its numbers have nine digits at most.
pub fn names_law()
    ensures { NamesReadBack }
{}

/// The text of a token of a local cell says one thing. Tokens that fit a cell read back as they were written, and so do both
/// bounds at once, where the numbers of the name have nine digits at most.
pub fn local_tokens_law()
    ensures one { LocalTokensSayOne }
    ensures read_back { LocalTokensReadBack }
    ensures both_bounds { LocalValuesReadBack }
{}

/// A list of leaves reads back as it was written, where its numbers have nine digits at most and its line is not too long.
pub fn runs_law()
    ensures { RunsReadBack }
{}

/// The `in` line of an input gives that input back, where the declared cells have names of their own. A line gives one store
/// over the declared cells at most, and is then bad nowhere.
pub fn inputs_law()
    ensures reads_back { InputsReadBack }
    ensures input { LinesGiveInputs }
    ensures one { LinesGiveOneInput }
    ensures good { GivenLinesAreGood }
{}

/// The `out` line of a store that there can be at an instant gives that store back, where the declared cells have names of
/// their own and the line is not too long. A line gives one store at most, which there can be at the instant, and is then
/// bad nowhere.
pub fn outs_law()
    ensures reads_back { OutsReadBack }
    ensures store { LinesGiveStores }
    ensures one { LinesGiveOneStore }
    ensures good { GivenOutsAreGood }
{}

/// Each line of an entry reads back, where no line is too long and the numbers of leaves have nine digits at most. It is one
/// line then, without a line feed within it.
pub fn entries_law()
    ensures read_back { EntriesReadBack }
    ensures lines { EntriesAreLines }
{}

/// The limit of the code is the one that the definitions name.
pub fn limits_law()
    ensures { LONGEST_ENTRY_LINE ≡ longest_entry_line }
{}
