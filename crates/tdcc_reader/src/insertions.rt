//! Flat forms in the order in which they come.
ghost use Rattle.std.specs.Prelude.{◌≡◌, ◌∷◌, ◌++◌, ◌<◌, ◌+◌, ◌*◌, [], false, IfOk, IsTrue, List, OnOk, length, map};
ghost use Rattle.tdcc_reader.specs.Insertions.{PlacesInOrder, inserted_views, goes_in};
ghost use Rattle.tdcc_reader.specs.FlatForms.{Entry, flat_form_view};
ghost use Rattle.tdcc_reader.specs.OpenForms.{open_forms, paired, wrapped};
ghost use Rattle.tdcc_reader.specs.Passes.{less_first};

use crate::flat_form::{FlatForm, FlatFormKind};
use std::alloc::{AllocError, Global};
use std::marker::Model;

/// A flat form, and its place among those that came before it.
#[derive(Debug, Drop)]
pub(crate) struct Insertion {
    pub(crate) place: usize,
    pub(crate) flat_form: FlatForm,
}

/// The flat forms of a program in the making. One that belongs in front of others comes behind them, and is not put in its
/// place before all have come, so that nothing has to make room for it.
#[derive(Debug, Drop)]
pub(crate) struct Insertions {
    came: Vec<Insertion>,
    /// Where the unit at hand of each open agent, `do` and `time` begins.
    starts: Vec<usize>,
}

impl Model for Insertions {
    ghost use Rattle.std.specs.Prelude.{reverse};
    ghost use Rattle.tdcc_reader.specs.OpenForms.{OpenForms, open_forms};

    ghost Value = { OpenForms };

    ghost use Rattle.tdcc_reader.specs.Insertions.{AreNested, AreOpen, placed_in_order, inserted_views};

    ghost view = { λ a. open_forms (placed_in_order (inserted_views a.came.items)) (reverse a.starts.items) };

    ghost invariant = { λ a. AreNested (inserted_views a.came.items) × AreOpen (reverse a.starts.items) (inserted_views a.came.items) };
}

/// Whether the last of those that wait belongs behind so many flat forms.
fn goes_in(waiting: &[Insertion], place: usize) -> bool
    ensures { result ≡ goes_in place (inserted_views waiting.now) }
{
    match waiting.split_last() {
        Some((front, _)) => place <= front.place,
        None => false,
    }
}

/// Moves the flat form that stands last in preorder to the back, or to those that wait. Says whether there was one.
fn move_last(
    left: &mut Vec<Insertion>,
    waiting: &mut Vec<Insertion>,
    back: &mut Vec<FlatForm>,
) -> Result<bool, AllocError>
    ensures kept { (fs : List Entry) → PlacesInOrder fs left.old.items waiting.old.items back.old.items
        → OnOk result (PlacesInOrder fs left.new.items waiting.new.items back.new.items) }
    ensures fewer { IfOk result (λ moved. IsTrue moved → 2 * length left.new.items + length waiting.new.items < 2 * length left.old.items + length waiting.old.items) }
    ensures none { IfOk result (λ moved. moved ≡ false → (left.new.items ≡ []) × (waiting.new.items ≡ [])) }
{
    if goes_in(waiting, left.len()) {
        if let Some(front) = waiting.pop() {
            back.push(front.flat_form)?;
        }
        return Ok(true);
    }
    let Some(last) = left.pop() else {
        return Ok(false);
    };
    if last.place < left.len() {
        waiting.push(last)?;
    } else {
        back.push(last.flat_form)?;
    }
    Ok(true)
}

impl Insertions {
    /// No flat forms, and one agent that begins.
    pub(crate) fn new(alloc: Global) -> Result<Insertions, AllocError>
        ensures { IfOk result (λ a. a ≡ open_forms [] (0 ∷ [])) }
    {
        let mut starts = Vec::new(alloc);
        starts.push(0)?;
        Ok(Insertions {
            came: Vec::new(alloc),
            starts,
        })
    }

    /// Puts a flat form behind the others.
    pub(crate) fn put(&mut self, flat_form: FlatForm) -> Result<(), AllocError>
        ensures { OnOk result (self.new ≡ open_forms (self.old.flat_forms ++ flat_form_view flat_form ∷ []) self.old.starts) }
    {
        let place = self.came.len();
        self.came.push(Insertion { place, flat_form })?;
        Ok(())
    }

    /// The unit at hand begins behind the flat forms so far.
    pub(crate) fn begin(&mut self) -> Result<(), AllocError>
        ensures { OnOk result (self.new ≡ open_forms self.old.flat_forms (length self.old.flat_forms ∷ self.old.starts)) }
    {
        self.starts.push(self.came.len())?;
        Ok(())
    }

    /// The unit at hand has ended.
    pub(crate) fn end(&mut self)
        ensures { self.new ≡ open_forms self.old.flat_forms (less_first self.old.starts) }
    {
        let _ = self.starts.pop();
    }

    /// Puts a flat form in front of the unit at hand, which then has ended, if there is one.
    pub(crate) fn wrap(&mut self, flat_form: FlatForm) -> Result<(), AllocError>
        ensures { OnOk result (self.new ≡ wrapped (flat_form_view flat_form) self.old.starts self.old) }
    {
        if let Some(place) = self.starts.pop() {
            self.came.push(Insertion { place, flat_form })?;
        }
        Ok(())
    }

    /// The unit at hand is the left part of a par, and the next unit begins.
    pub(crate) fn next_unit(&mut self, alloc: Global) -> Result<(), AllocError>
        ensures { OnOk result (self.new ≡ paired self.old.starts self.old) }
    {
        if let Some(place) = self.starts.pop() {
            let kind = FlatFormKind::Par(self.came.len() + 1 - place);
            let flat_form = FlatForm {
                kind,
                ask: Vec::new(alloc),
            };
            self.came.push(Insertion { place, flat_form })?;
            let next = self.came.len();
            self.starts.push(next)?;
        }
        Ok(())
    }

    /// The flat forms in preorder.
    pub(crate) fn in_preorder(self, alloc: Global) -> Result<Vec<FlatForm>, AllocError>
        ensures { IfOk result (λ flat_forms. map flat_form_view flat_forms.items ≡ self.flat_forms) }
    {
        let mut left = self.came;
        let mut waiting = Vec::new(alloc);
        let mut back = Vec::new(alloc);
        while move_last(&mut left, &mut waiting, &mut back)? {}
        back.reverse();
        Ok(back)
    }
}
