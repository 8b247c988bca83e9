//! The nodes of core forms.
ghost use Rattle.std.specs.Prelude.{◌≡◌, All, IfOk, map};
ghost use Rattle.core_reader.specs.Forms.{IsCoreForm, form_of_node};

use agent_core::Node;
use std::alloc::{AllocError, Global};
use tdcc_reader::Form;

/// The node of a form.
fn node_of(form: Form) -> Node
    requires { IsCoreForm form }
    ensures { form_of_node result ≡ form }
{
    match form {
        Form::Skip => Node::Skip,
        Form::Tell(told) => Node::Tell(told),
        Form::Then { ask, body } => Node::Then { ask, body },
        Form::Else { ask, body } => Node::Else { ask, body },
        Form::Par { left, right } => Node::Par { left, right },
        Form::New { cell, body } => Node::New { cell, body },
        Form::Hence { body } => Node::Hence { body },
        Form::Next { body } => Node::Next { body },
        Form::Always { .. } | Form::When { .. } | Form::Watch { .. } | Form::Time { .. } => {
            unreachable!()
        }
    }
}

/// The nodes of the forms.
pub(crate) fn nodes_of(alloc: Global, forms: Vec<Form>) -> Result<Vec<Node>, AllocError>
    requires { All IsCoreForm forms.items }
    ensures { IfOk result (λ nodes. map form_of_node nodes.items ≡ forms.items) }
{
    let mut nodes = Vec::new(alloc);
    for form in forms {
        nodes.push(node_of(form))?;
    }
    Ok(nodes)
}
