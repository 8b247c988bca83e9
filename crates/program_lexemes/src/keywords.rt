//! Keywords, known by their bytes.
ghost use Rattle.std.specs.Prelude.{◌≡◌, IfNone, IfSome};
ghost use Rattle.program_lexemes.specs.Spellings.{keyword_bytes};
ghost use Rattle.program_lexemes.specs.declared.keywords.Keyword.{Keyword};

/// A keyword. `Set` is reserved: no program has it yet.
#[derive(Clone, Copy, Debug, PartialEq, Eq)]
pub enum Keyword {
    Signal,
    Int,
    Set,
    In,
    Skip,
    If,
    Then,
    Else,
    New,
    Hence,
    Next,
    Always,
    When,
    Do,
    Watching,
    Time,
    On,
}

/// The keyword that is spelled with these bytes.
pub fn keyword_of(bytes: &[u8]) -> Option<Keyword>
    ensures found { IfSome result (λ k. bytes.now ≡ keyword_bytes k) }
    ensures none { IfNone result ((k : Keyword) → bytes.now ≡ keyword_bytes k → ⊥) }
{
    match bytes {
        b"signal" => Some(Keyword::Signal),
        b"int" => Some(Keyword::Int),
        b"set" => Some(Keyword::Set),
        b"in" => Some(Keyword::In),
        b"skip" => Some(Keyword::Skip),
        b"if" => Some(Keyword::If),
        b"then" => Some(Keyword::Then),
        b"else" => Some(Keyword::Else),
        b"new" => Some(Keyword::New),
        b"hence" => Some(Keyword::Hence),
        b"next" => Some(Keyword::Next),
        b"always" => Some(Keyword::Always),
        b"when" => Some(Keyword::When),
        b"do" => Some(Keyword::Do),
        b"watching" => Some(Keyword::Watching),
        b"time" => Some(Keyword::Time),
        b"on" => Some(Keyword::On),
        _ => None,
    }
}
