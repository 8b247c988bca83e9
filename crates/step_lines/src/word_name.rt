//! The words of an instant by name.
ghost use Rattle.std.specs.Prelude.{◌≡◌, ◌<◌, ◌++◌, ℕ, Some, length, slice_get, IfOk, IfSome, IsNone, MatchOption, OnOk};
ghost use Rattle.token_system.specs.Tokens.{Fits};
ghost use Rattle.instant_net.specs.declared.parts.NetCell.{NetCell};
ghost use Rattle.instant_net.specs.Words.{told_as};
ghost use Rattle.step_lines.specs.WordNames.{HasEnding, NamesWord, NamesWordOf, name_text};

use agent_core::Program;
use certificate_text::write_name;
use instant_net::{Atom, Net};
use std::alloc::Global;
use token_system::{CellName, Kind, Memory, Token};

/// Appends the name of a cell as it is written. Without memory a part of it may be appended.
fn write_cell_name(program: &Program, name: &CellName, into: &mut Vec<u8>) -> Result<(), Memory>
    ensures { OnOk result (into.new.items ≡ into.old.items ++ name_text program.now name.now) }
{
    match name {
        CellName::Declared(number) => match program.cells().get(*number as usize) {
            Some(decl) => into.extend_from_slice(decl.name.bytes())?,
            None => {}
        },
        CellName::Local { node, births } => write_name(*node, births.list(), into)?,
    }
    Ok(())
}

/// The word to which a token of the cell is told.
fn word_told(net: &Net, cell: u32, token: Token) -> u32
    requires fits { (c : NetCell) × (slice_get net.now.cells cell ≡ Some c) × Fits c.cell token }
    ensures { (c : NetCell) → slice_get net.now.cells cell ≡ Some c → result ≡ (told_as c token).word }
{
    net.told(Atom { cell, token }).word
}

/// A token that is told to the word which has this ending behind the name of a cell of this kind. A signal's word has none.
fn token_with_ending(kind: Kind, ending: &[u8]) -> Option<Token>
    ensures { (c : NetCell) → c.cell.kind ≡ kind
        → MatchOption result ((word : ℕ) → ¬ (HasEnding c ending.now word)) (λ t. Fits c.cell t × HasEnding c ending.now (told_as c t).word) }
{
    match kind {
        Kind::Signal if ending.is_empty() => Some(Token::On),
        Kind::Signal => None,
        Kind::Number => match ending {
            b".lo" => Some(Token::AtLeast(0)),
            b".hi" => Some(Token::AtMost(0)),
            _ => None,
        },
    }
}

/// The word that has this ending behind the name of the cell.
fn word_with_ending(net: &Net, cell: u32, ending: &[u8]) -> Option<u32>
    requires there { cell < length net.now.cells }
    ensures { (c : NetCell) → slice_get net.now.cells cell ≡ Some c
        → MatchOption result ((word : ℕ) → ¬ (HasEnding c ending.now word)) (HasEnding c ending.now) }
{
    match token_with_ending(net.cell(cell).kind, ending) {
        Some(token) => Some(word_told(net, cell, token)),
        None => None,
    }
}

/// The word of the cell that the text names, where it names one. The buffer takes the cell's name.
fn word_of_cell(
    program: &Program,
    net: &Net,
    cell: u32,
    text: &[u8],
    name: &mut Vec<u8>,
) -> Result<Option<u32>, Memory>
    requires there { cell < length net.now.cells }
    ensures { IfOk result (λ found. (c : NetCell) → slice_get net.now.cells cell ≡ Some c
        → MatchOption found ((word : ℕ) → ¬ (NamesWordOf program.now c text.now word)) (NamesWordOf program.now c text.now)) }
{
    name.clear();
    write_cell_name(program, net.cell_name(cell), name)?;
    match text.strip_prefix(name.as_slice()) {
        Some(ending) => Ok(word_with_ending(net, cell, ending)),
        None => Ok(None),
    }
}

/// The word of the net that the text names, where it names one.
pub fn word_named(
    alloc: Global,
    program: &Program,
    net: &Net,
    text: &[u8],
) -> Result<Option<u32>, Memory>
    ensures named { IfOk result (λ found. IfSome found (NamesWord program.now net.now.cells text.now)) }
    ensures none { IfOk result (λ found. IsNone found → (word : ℕ) → ¬ (NamesWord program.now net.now.cells text.now word)) }
{
    let mut name = Vec::new(alloc);
    for cell in 0..net.cells() {
        if let Some(word) = word_of_cell(program, net, cell, text, &mut name)? {
            return Ok(Some(word));
        }
    }
    Ok(None)
}
