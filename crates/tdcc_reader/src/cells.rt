//! The cells that declarations make.
ghost use Rattle.std.specs.Prelude.{◌≡◌, ℕ, List};
ghost use Rattle.token_system.specs.Domain.{is_cell};
ghost use Rattle.token_system.specs.declared.cell.Kind.TheVariants as Kind;
ghost use Rattle.tdcc_reader.specs.Surfaces.{declared_as, declared_number, declared_signal};

use token_system::{Cell, GREATEST_BOUND, Kind};

/// The cell of a signal.
pub(crate) fn signal_cell() -> Cell
    ensures { (x : List ℕ) → declared_as x result ≡ declared_signal x }
{
    Cell {
        kind: Kind::Signal,
        lo: 0,
        hi: 0,
    }
}

/// Whether these are the bounds of a domain.
fn is_domain(lo: i64, hi: i64) -> bool
    ensures { result ≡ is_cell Kind.Number lo hi }
{
    -GREATEST_BOUND <= lo
        && lo <= GREATEST_BOUND
        && -GREATEST_BOUND <= hi
        && hi <= GREATEST_BOUND
        && lo <= hi
}

/// The cell of a number with this domain.
pub(crate) fn number_cell(lo: i64, hi: i64) -> Cell
    ensures { (x : List ℕ) → declared_as x result ≡ declared_number x lo hi }
{
    if !is_domain(lo, hi) {
        return signal_cell();
    }
    Cell {
        kind: Kind::Number,
        lo,
        hi,
    }
}
