//! The symbolic agent of a surface, emitted from its last form to its first.
ghost use Rattle.std.specs.Prelude.{◌≡◌, ◌+◌, ◌<◌, ◌≤◌, ◌^◌, ◌++◌, List, IfErr, IfOk, OnOk, length, reverse};
ghost use Rattle.agent_core.specs.Limits.{most_nodes};
ghost use Rattle.std.specs.List.{flat_map};
ghost use Rattle.tdcc_reader.specs.Trees.{Tree, form_listing};
ghost use Rattle.expansion_laws.specs.Expanding.{symbolic_of};
ghost use Rattle.expansion_laws.specs.SymbolicAgents.{symbolic_size};
ghost use Rattle.derived_forms.specs.Emitters.{emitted_nodes};
ghost use Rattle.derived_forms.specs.FormParts.{first_form, subtree_flat_nodes, child_subtrees};
ghost use Rattle.derived_forms.specs.FlatNodes.{flat_nodes};
ghost use Rattle.derived_forms.specs.Refusals.{IsTooLarge};
ghost use Rattle.derived_forms.specs.declared.flat_node.FlatNode.{FlatNode};

use crate::constraint::constraint_copy;
use crate::emitter::Emitter;
use crate::fault::ExpandFault;
use crate::flat_node::FlatNode;
use std::alloc::Global;
use tdcc_reader::Form;

/// Puts the symbolic agent of a form in front; those of its parts stand there already. So many cells stand before the
/// hidden ones, and the form has this number.
fn put_form(emitter: &mut Emitter, form: &Form, cells: u32, number: u32) -> Result<(), ExpandFault>
    requires room { length (emitted_nodes emitter.old) ≤ most_nodes }
    requires binders { cells + number < 2 ^ 32 }
    ensures emitted { (t : Tree) (rest : List FlatNode) → form.now ≡ first_form number t
        → emitted_nodes emitter.old ≡ flat_map (subtree_flat_nodes cells) (child_subtrees number t) ++ rest
        → OnOk result (emitted_nodes emitter.new ≡ flat_nodes (symbolic_of cells number t) ++ rest) }
    ensures room { OnOk result (length (emitted_nodes emitter.new) ≤ most_nodes) }
    ensures fault { (t : Tree) (rest : List FlatNode) → form.now ≡ first_form number t
        → emitted_nodes emitter.old ≡ flat_map (subtree_flat_nodes cells) (child_subtrees number t) ++ rest
        → IfErr result (IsTooLarge (symbolic_size (symbolic_of cells number t) + length rest)) }
{
    let alloc = emitter.alloc;
    let binder = cells + number;
    match form {
        Form::Skip => emitter.add(FlatNode::Skip),
        Form::Tell(told) => emitter.add(FlatNode::Tell(constraint_copy(alloc, told)?)),
        Form::Then { ask, .. } => emitter.add(FlatNode::Then(constraint_copy(alloc, ask)?)),
        Form::Else { ask, .. } => emitter.add(FlatNode::Else(constraint_copy(alloc, ask)?)),
        Form::Par { .. } => emitter.add(FlatNode::Par),
        Form::New { cell, .. } => emitter.add(FlatNode::New { binder: *cell }),
        Form::Hence { .. } => emitter.add(FlatNode::Hence),
        Form::Next { .. } => emitter.add(FlatNode::Next),
        Form::Always { .. } => emitter.always(),
        Form::When { ask, .. } => emitter.when(binder, ask),
        Form::Watch { stop, .. } => emitter.watching(binder, stop),
        Form::Time { clock, .. } => emitter.timed(binder, clock),
    }
}

/// The nodes of the symbolic agent of a surface with so many cells, the last one first.
pub(crate) fn emit(alloc: Global, forms: &[Form], cells: u32) -> Result<Vec<FlatNode>, ExpandFault>
    requires { cells + length forms.now < 2 ^ 32 }
    ensures emitted { (t : Tree) → forms.now ≡ form_listing 0 t
        → IfOk result (λ emitted. reverse emitted.items ≡ flat_nodes (symbolic_of cells 0 t)) }
    ensures room { IfOk result (λ emitted. length emitted.items ≤ most_nodes) }
    ensures fault { (t : Tree) → forms.now ≡ form_listing 0 t
        → IfErr result (IsTooLarge (symbolic_size (symbolic_of cells 0 t))) }
{
    let mut emitter = Emitter::new(alloc);
    let mut left = forms.len();
    while left > 0 {
        left -= 1;
        put_form(&mut emitter, &forms[left], cells, left as u32)?;
    }
    Ok(emitter.flat_nodes)
}
