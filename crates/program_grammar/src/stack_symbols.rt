//! The parts of the grammar.
ghost use Rattle.std.specs.Prelude.{◌≡◌};
ghost use Rattle.program_grammar.specs.Machine.{may_end};

/// A part of the grammar that is still to come, named by its role, so that what follows need not look at the grammar.
#[derive(Clone, Copy, Debug, PartialEq, Eq)]
pub enum StackSymbol {
    /// `signal` or `int`, which begins a declaration, or none.
    Declarations,
    /// `signal` declares this name.
    DeclaredName,
    /// `,` and a further name of `signal`, or `;`.
    MoreNames,
    /// `int` declares this name.
    DeclaredIntName,
    /// `in` between the name of a number and its domain.
    DomainIn,
    /// The least value of a domain.
    LowNumber,
    /// `..` in a domain.
    TheRange,
    /// The greatest value of a domain.
    HighNumber,
    /// `,` and a further name of `int`, or `;`.
    MoreItems,
    /// A unit; it takes the unit's first word.
    OneUnit,
    /// `||` and a further unit of the agent, or none: the agent is whole.
    MoreUnits,
    /// A token of a constraint; it takes the token's first word.
    OneToken,
    /// `&` and a further token of the constraint, or none: the constraint is whole.
    MoreTokens,
    /// `>=`, `<=` or `=` after a name, or none: the name alone is the token.
    Bound,
    /// The name after `!`.
    DeniedName,
    /// The name after `#`.
    ClashingName,
    /// The number after `>=`.
    LeastNumber,
    /// The number after `<=`.
    MostNumber,
    /// The number after `=`.
    ExactNumber,
    /// `then` or `else` after the ask of `if`.
    Branch,
    /// `signal` or `int` after `new`.
    NewKind,
    /// The name of `new signal`.
    LocalName,
    /// The name of `new int`.
    LocalIntName,
    /// `in` before the body of `new`.
    TheIn,
    /// `}`.
    TheClose,
    /// `do` after the ask of `when`.
    TheDo,
    /// `watching` after the agent of `do`.
    TheWatching,
    /// `on` after the agent of `time`.
    TheOn,
    /// A constraint that is told is whole. This part and those below take no word.
    EndTell,
    /// The body of a prefix form other than `new` is whole.
    EndBody,
    /// The body of `new` is whole.
    EndLocal,
    /// The constraint of `watching` is whole.
    EndWatch,
    /// The constraint of `on` is whole.
    EndTimed,
}

/// Whether the part may be left without a word.
pub fn may_be_absent(part: StackSymbol) -> bool
    ensures { result ≡ may_end part }
{
    matches!(
        part,
        StackSymbol::Declarations
            | StackSymbol::MoreUnits
            | StackSymbol::MoreTokens
            | StackSymbol::Bound
            | StackSymbol::EndTell
            | StackSymbol::EndBody
            | StackSymbol::EndLocal
            | StackSymbol::EndWatch
            | StackSymbol::EndTimed
    )
}
