//! The laws of lexemes: facts about their definitions, each proved as the contract of a function with no body.
ghost use Rattle.std.specs.Prelude.{◌≡◌, ◌⊎◌, ◌↔◌, ◌<◌, ◌^◌, ℕ, List, Some, decimal, false, neg_ℤ, pos, true, ◌∷◌};
ghost use Rattle.program_lexemes.specs.Forms.{kind_of};
ghost use Rattle.program_lexemes.specs.Lexemes.{AreLexemes, IsBad};
ghost use Rattle.program_lexemes.specs.declared.lexer.Lexeme.{Lexeme};
ghost use Rattle.names_and_numbers.specs.Names.{is_name};
ghost use Rattle.names_and_numbers.specs.Numbers.{number_of_text};
ghost use Rattle.program_lexemes.specs.Limits.{longest_core_text, longest_program_text};
ghost use Rattle.program_lexemes.specs.Names.{IsName};
ghost use Rattle.program_lexemes.specs.Numbers.{is_long, is_number_text, value_of_number};
ghost use Rattle.program_lexemes.specs.SpacedLexemes.{AreCut, SpacedLexeme, spaced_text, spans};
ghost use Rattle.program_lexemes.specs.Spellings.{is_keyword, is_symbol, keyword_bytes, keyword_named, symbol_bytes, symbol_named};
ghost use Rattle.program_lexemes.specs.declared.keywords.Keyword.{Keyword};
ghost use Rattle.program_lexemes.specs.declared.symbols.Symbol.{Symbol};
ghost use Rattle.program_lexemes.specs.declared.bytes.TextForm.{TextForm};
ghost use Rattle.program_lexemes.specs.declared.bytes.TextForm.TheVariants as forms;
ghost use Rattle.program_lexemes.specs.declared.lexer.LexKind.TheVariants as LexKind;

use crate::limits::{LONGEST_CORE_TEXT, LONGEST_PROGRAM_TEXT};

/// A text that is put together from lexemes with white space behind them, each cut from what follows it, has these
/// lexemes and no others.
pub fn joined_law()
    ensures { (form : TextForm) (ps : List SpacedLexeme) → AreCut form ps
        → AreLexemes form (spaced_text ps) (spans 0 ps) }
{}

/// No two keywords or symbols have one spelling.
pub fn spellings_law()
    ensures keywords { (k : Keyword) → keyword_named (keyword_bytes k) ≡ Some k }
    ensures symbols { (s : Symbol) → symbol_named (symbol_bytes s) ≡ Some s }
{}

/// The bytes of a keyword, a symbol or a number are one.
pub fn kinds_law()
    ensures keyword { (form : TextForm) (bytes : List ℕ)
        → kind_of form bytes ≡ Some LexKind.Keyword → is_keyword bytes ≡ true }
    ensures symbol { (form : TextForm) (bytes : List ℕ)
        → kind_of form bytes ≡ Some LexKind.Symbol → is_symbol bytes ≡ true }
    ensures number { (form : TextForm) (bytes : List ℕ)
        → kind_of form bytes ≡ Some LexKind.Number → is_number_text bytes ≡ true }
{}

/// The decimal numeral of a number, as it is printed, is a lexeme whose value is the number, and so is the numeral
/// behind a minus, the byte 45, whose value is the negated number.
pub fn numerals_law()
    ensures kind { (form : TextForm) (n : ℕ) → n < 2 ^ 64
        → kind_of form (decimal n) ≡ Some LexKind.Number }
    ensures minus_kind { (form : TextForm) (n : ℕ) → n < 2 ^ 64
        → kind_of form (45 ∷ decimal n) ≡ Some LexKind.Number }
    ensures value { (n : ℕ) → n < 2 ^ 64 → value_of_number (decimal n) ≡ pos n }
    ensures minus_value { (n : ℕ) → n < 2 ^ 64 → value_of_number (45 ∷ decimal n) ≡ neg_ℤ (pos n) }
{}

/// Each text has lexemes to its end, and these alone, or a bad byte, and this alone. So what `lexemes` answers is all that
/// there is to say of a text, unless it answers `Memory`.
pub fn lexemes_law()
    ensures some { (form : TextForm) (text : List ℕ)
        → ((ls : List Lexeme) × AreLexemes form text ls) ⊎ ((offset : ℕ) × IsBad form text offset) }
    ensures one_list { (form : TextForm) (text : List ℕ) (ls ms : List Lexeme)
        → AreLexemes form text ls → AreLexemes form text ms → ls ≡ ms }
    ensures one_byte { (form : TextForm) (text : List ℕ) (m n : ℕ)
        → IsBad form text m → IsBad form text n → m ≡ n }
    ensures not_both { (form : TextForm) (text : List ℕ) (ls : List Lexeme) (offset : ℕ)
        → AreLexemes form text ls → IsBad form text offset → ⊥ }
{}

/// The names of program texts are those of token texts that are no keyword, and the numbers of any text that are not too
/// long are those that can be read.
pub fn names_law()
    ensures names { (bytes : List ℕ) →
        IsName forms.Program bytes ↔ ((is_name bytes ≡ true) × (is_keyword bytes ≡ false)) }
    ensures numbers { (form : TextForm) (bytes : List ℕ) →
        ((kind_of form bytes ≡ Some LexKind.Number) × (is_long LexKind.Number bytes ≡ false))
        ↔ (number_of_text bytes ≡ Some (value_of_number bytes)) }
{}

/// The constants of the code are the limits of the definitions.
pub fn limits_law()
    ensures program_text { LONGEST_PROGRAM_TEXT ≡ longest_program_text }
    ensures core_text { LONGEST_CORE_TEXT ≡ longest_core_text }
{}
