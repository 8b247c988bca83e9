//! A law of the lines. It is a function that computes nothing, and its contract is the law.
ghost use Rattle.step_lines.specs.Laws.{LinesSayOneStep};

/// Where each cell of a net has a name of its own, a line says one step at most.
pub fn one_step_law()
    ensures { LinesSayOneStep }
{}
