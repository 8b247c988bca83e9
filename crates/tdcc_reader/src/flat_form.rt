//! Forms while they are read.
ghost use Rattle.std.specs.Prelude.{◌≡◌, ◌+◌, All, IfOk, map};
ghost use Rattle.tdcc_reader.specs.FlatForms.{HasConstraint, IsWholeFlatForm, flat_form_view, form_at, forms_at, link};

use crate::surface::Form;
use agent_core::Constraint;
use std::alloc::{AllocError, Global};
use token_system::Token;

/// What a form is, without its constraint. The body of a form, and the left part of a par, stand right behind it.
#[derive(Clone, Copy, Debug, PartialEq, Eq)]
pub(crate) enum FlatFormKind {
    Skip,
    Tell,
    Then,
    Else,
    /// So many forms behind it stands the right part.
    Par(usize),
    New(u32),
    Hence,
    Next,
    Always,
    When,
    Watch,
    Time,
}

/// A form without its number, and with the tokens of its constraint, if it has one.
#[derive(Debug, Drop)]
pub(crate) struct FlatForm {
    pub(crate) kind: FlatFormKind,
    pub(crate) ask: Vec<(u32, Token)>,
}

/// The number of the form so many forms behind this one.
fn link(at: usize, behind: usize) -> u32
    ensures { result ≡ link at behind }
{
    u32::try_from(at.saturating_add(behind)).unwrap_or(u32::MAX)
}

/// The form of a flat form that has this number.
fn form_at(at: usize, kind: FlatFormKind, ask: Vec<(u32, Token)>) -> Form
    requires { HasConstraint kind ask.items }
    ensures { result ≡ form_at at kind ask.items }
{
    let body = link(at, 1);
    match kind {
        FlatFormKind::Skip => Form::Skip,
        FlatFormKind::Tell => Form::Tell(Constraint::make(ask)),
        FlatFormKind::Then => Form::Then {
            ask: Constraint::make(ask),
            body,
        },
        FlatFormKind::Else => Form::Else {
            ask: Constraint::make(ask),
            body,
        },
        FlatFormKind::Par(right) => Form::Par {
            left: body,
            right: link(at, right),
        },
        FlatFormKind::New(cell) => Form::New { cell, body },
        FlatFormKind::Hence => Form::Hence { body },
        FlatFormKind::Next => Form::Next { body },
        FlatFormKind::Always => Form::Always { body },
        FlatFormKind::When => Form::When {
            ask: Constraint::make(ask),
            body,
        },
        FlatFormKind::Watch => Form::Watch {
            body,
            stop: Constraint::make(ask),
        },
        FlatFormKind::Time => Form::Time {
            body,
            clock: Constraint::make(ask),
        },
    }
}

/// The forms of the flat forms, numbered from 0.
pub(crate) fn forms(alloc: Global, flat_forms: &[FlatForm]) -> Result<Vec<Form>, AllocError>
    requires { All IsWholeFlatForm flat_forms.now }
    ensures { IfOk result (λ forms. forms.items ≡ forms_at 0 (map flat_form_view flat_forms.now)) }
{
    let mut forms = Vec::new(alloc);
    for (at, flat_form) in flat_forms.iter().enumerate() {
        let ask = flat_form.ask.as_slice().to_vec(alloc)?;
        forms.push(form_at(at, flat_form.kind, ask))?;
    }
    Ok(forms)
}
