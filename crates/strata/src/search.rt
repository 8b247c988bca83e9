//! The first case by which a program has no strata.
ghost use Rattle.std.specs.Prelude.{◌≡◌, ◌<◌, length, map};
ghost use Rattle.agent_core.specs.Listing.{IsListing};
ghost use Rattle.agent_core.specs.Strata.{cases};
ghost use Rattle.strata.specs.Items.{AskInside, AllInside};
ghost use Rattle.strata.specs.Search.{first_that, told_below, pairs_with, pairs, reaches_back, edge_case, named, AreSquare};

use agent_core::{Constraint, Node, Program};

/// A cell for which an else asks, and a cell that is told below it.
#[derive(Clone, Copy, Debug)]
pub(crate) struct Case {
    pub guard: u32,
    pub told: u32,
}

/// The first asked cell that the told cell reaches by its row.
fn first_guard(rows: &[Vec<bool>], told: u32, ask: &Constraint) -> Option<Case>
    requires rows { AreSquare rows.now }
    requires told { told < length rows.now }
    requires ask { AskInside (length rows.now) ask.now }
    ensures { result ≡ first_that (reaches_back rows.now) (pairs_with ask.now told) }
{
    for pair in ask.list() {
        let guard = pair.0;
        if rows[told as usize][guard as usize] {
            return Some(Case { guard, told });
        }
    }
    None
}

/// The first of the cells of a tell that reaches an asked cell.
fn first_told(rows: &[Vec<bool>], told: &Constraint, ask: &Constraint) -> Option<Case>
    requires rows { AreSquare rows.now }
    requires told { AskInside (length rows.now) told.now }
    requires ask { AskInside (length rows.now) ask.now }
    ensures { result ≡ first_that (reaches_back rows.now) (pairs ask.now (map (λ x. x.0) told.now)) }
{
    for pair in told.list() {
        if let Some(case) = first_guard(rows, pair.0, ask) {
            return Some(case);
        }
    }
    None
}

/// The first of the cells told below node n that reaches an asked cell.
fn first_below(rows: &[Vec<bool>], nodes: &[Node], n: u32, ask: &Constraint) -> Option<Case>
    requires rows { AreSquare rows.now }
    requires ask { AskInside (length rows.now) ask.now }
    requires tree { IsListing nodes.now }
    requires all { AllInside (length rows.now) nodes.now }
    requires n { n < length nodes.now }
    ensures { result ≡ first_that (reaches_back rows.now) (pairs ask.now (told_below nodes.now n)) }
{
    match &nodes[n as usize] {
        Node::Skip | Node::Hence { .. } | Node::Next { .. } => None,
        Node::Tell(told) => first_told(rows, told, ask),
        Node::Then { body, .. } | Node::Else { body, .. } | Node::New { body, .. } => {
            first_below(rows, nodes, *body, ask)
        }
        Node::Par { left, right } => {
            if let Some(case) = first_below(rows, nodes, *left, ask) {
                return Some(case);
            }
            first_below(rows, nodes, *right, ask)
        }
    }
}

/// The first case in which a told cell reaches one that its else asks for, with the else's node.
pub(crate) fn first_case(rows: &[Vec<bool>], program: &Program) -> Option<(u32, Case)>
    requires rows { AreSquare rows.now }
    requires all { length rows.now ≡ length program.now.cells }
    ensures { result ≡ named (first_that (λ e. reaches_back rows.now (edge_case e)) (cases program.now)) }
{
    let nodes = program.nodes();
    for (n, node) in nodes.iter().enumerate() {
        if let Node::Else { ask, body } = node {
            if let Some(case) = first_below(rows, nodes, *body, ask) {
                return Some((n as u32, case));
            }
        }
    }
    None
}
