//! Symbols, known by their bytes.
ghost use Rattle.std.specs.Prelude.{◌≡◌, IfNone, IfSome};
ghost use Rattle.program_lexemes.specs.Spellings.{symbol_bytes};
ghost use Rattle.program_lexemes.specs.declared.symbols.Symbol.{Symbol};

/// A symbol. `Colon` is reserved: no program has it yet.
#[derive(Clone, Copy, Debug, PartialEq, Eq)]
pub enum Symbol {
    Semicolon,
    Comma,
    Range,
    Ampersand,
    Bars,
    OpenBrace,
    CloseBrace,
    Bang,
    Hash,
    GreaterEqual,
    LessEqual,
    Equal,
    Colon,
}

/// The symbol that is spelled with these bytes.
pub fn symbol_of(bytes: &[u8]) -> Option<Symbol>
    ensures found { IfSome result (λ s. bytes.now ≡ symbol_bytes s) }
    ensures none { IfNone result ((s : Symbol) → bytes.now ≡ symbol_bytes s → ⊥) }
{
    match bytes {
        b";" => Some(Symbol::Semicolon),
        b"," => Some(Symbol::Comma),
        b".." => Some(Symbol::Range),
        b"&" => Some(Symbol::Ampersand),
        b"||" => Some(Symbol::Bars),
        b"{" => Some(Symbol::OpenBrace),
        b"}" => Some(Symbol::CloseBrace),
        b"!" => Some(Symbol::Bang),
        b"#" => Some(Symbol::Hash),
        b">=" => Some(Symbol::GreaterEqual),
        b"<=" => Some(Symbol::LessEqual),
        b"=" => Some(Symbol::Equal),
        b":" => Some(Symbol::Colon),
        _ => None,
    }
}
