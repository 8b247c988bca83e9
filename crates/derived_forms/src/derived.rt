//! What the derived forms make of the first symbolic agent that is emitted.
ghost use Rattle.std.specs.Prelude.{◌≡◌, ◌+◌, ◌≤◌, ◌∷◌, ◌++◌, List, IfErr, OnOk, length};
ghost use Rattle.agent_core.specs.Limits.{most_nodes};
ghost use Rattle.std.specs.List.{flat_map};
ghost use Rattle.expansion_laws.specs.SymbolicAgents.{SymbolicAgent, symbolic_size};
ghost use Rattle.expansion_laws.specs.Table.{always, clocked, guarded, signal_on, timed, watching, when};
ghost use Rattle.derived_forms.specs.Emitters.{emitted_nodes};
ghost use Rattle.derived_forms.specs.FlatNodes.{first_flat_node, guarded_flat_nodes, symbolic_parts, flat_nodes};
ghost use Rattle.derived_forms.specs.Refusals.{IsTooLarge};
ghost use Rattle.derived_forms.specs.declared.flat_node.FlatNode.{FlatNode as AFlatNode};

use crate::constraint::{constraint_copy, signal_on};
use crate::emitter::Emitter;
use crate::fault::ExpandFault;
use crate::flat_node::FlatNode;
use agent_core::Constraint;
use std::alloc::AllocError;

impl Emitter {
    /// Makes the first symbolic agent run at every instant from now on.
    pub(crate) fn always(&mut self) -> Result<(), ExpandFault>
        requires { length (emitted_nodes self.old) ≤ most_nodes }
        ensures emitted { (a : SymbolicAgent) (rest : List AFlatNode) → emitted_nodes self.old ≡ flat_nodes a ++ rest
            → OnOk result (emitted_nodes self.new ≡ flat_nodes (always a) ++ rest) }
        ensures room { OnOk result (length (emitted_nodes self.new) ≤ most_nodes) }
        ensures fault { (a : SymbolicAgent) (rest : List AFlatNode) → emitted_nodes self.old ≡ flat_nodes a ++ rest
            → IfErr result (IsTooLarge (symbolic_size (always a) + length rest)) }
    {
        let body = self.take_first()?;
        self.check_room(2 * body.len() + 2)?;
        self.put_copy(&body)?;
        self.put(FlatNode::Hence)?;
        self.put_back(body)?;
        self.put(FlatNode::Par)?;
        Ok(())
    }

    /// Puts this in front: once the constraint holds, the agent with these nodes is started where the signal with
    /// this binder is not on, and the signal is on from the next instant on.
    fn put_start(
        &mut self,
        binder: u32,
        ask: &Constraint,
        body: Vec<FlatNode>,
    ) -> Result<(), AllocError>
        ensures { OnOk result (emitted_nodes self.new ≡ FlatNode.Then ask.now ∷ FlatNode.Par
            ∷ FlatNode.Else (signal_on binder) ∷ (body.items
            ++ (FlatNode.Hence ∷ FlatNode.Tell (signal_on binder) ∷ emitted_nodes self.old))) }
    {
        self.put(FlatNode::Tell(signal_on(self.alloc, binder)?))?;
        self.put(FlatNode::Hence)?;
        self.put_back(body)?;
        self.put(FlatNode::Else(signal_on(self.alloc, binder)?))?;
        self.put(FlatNode::Par)?;
        self.put(FlatNode::Then(constraint_copy(self.alloc, ask)?))?;
        Ok(())
    }

    /// Puts this in front: once the constraint holds, the signal with this binder is on from now on.
    fn put_stop(&mut self, binder: u32, ask: &Constraint) -> Result<(), AllocError>
        ensures { OnOk result (emitted_nodes self.new ≡ FlatNode.Then ask.now ∷ FlatNode.Par
            ∷ FlatNode.Tell (signal_on binder)
            ∷ FlatNode.Hence ∷ FlatNode.Tell (signal_on binder) ∷ emitted_nodes self.old) }
    {
        self.put(FlatNode::Tell(signal_on(self.alloc, binder)?))?;
        self.put(FlatNode::Hence)?;
        self.put(FlatNode::Tell(signal_on(self.alloc, binder)?))?;
        self.put(FlatNode::Par)?;
        self.put(FlatNode::Then(constraint_copy(self.alloc, ask)?))?;
        Ok(())
    }

    /// Makes the first symbolic agent wait for the first instant that entails the constraint. The binder is that of
    /// the hidden signal.
    pub(crate) fn when(&mut self, binder: u32, ask: &Constraint) -> Result<(), ExpandFault>
        requires { length (emitted_nodes self.old) ≤ most_nodes }
        ensures emitted { (a : SymbolicAgent) (rest : List AFlatNode) → emitted_nodes self.old ≡ flat_nodes a ++ rest
            → OnOk result (emitted_nodes self.new ≡ flat_nodes (when binder ask.now a) ++ rest) }
        ensures room { OnOk result (length (emitted_nodes self.new) ≤ most_nodes) }
        ensures fault { (a : SymbolicAgent) (rest : List AFlatNode) → emitted_nodes self.old ≡ flat_nodes a ++ rest
            → IfErr result (IsTooLarge (symbolic_size (when binder ask.now a) + length rest)) }
    {
        let body = self.take_first()?;
        self.check_room(2 * body.len() + 12)?;
        self.put_start(binder, ask, body)?;
        self.always()?;
        self.add(FlatNode::New { binder })?;
        Ok(())
    }

    /// Puts a node in front; a tell waits for the signal with this binder to be absent.
    fn put_guarded(&mut self, binder: u32, flat_node: FlatNode) -> Result<(), ExpandFault>
        requires { length (emitted_nodes self.old) ≤ most_nodes }
        ensures emitted { OnOk result
            (emitted_nodes self.new ≡ guarded_flat_nodes binder flat_node ++ emitted_nodes self.old) }
        ensures room { OnOk result (length (emitted_nodes self.new) ≤ most_nodes) }
        ensures fault { IfErr result
            (IsTooLarge (length (guarded_flat_nodes binder flat_node) + length (emitted_nodes self.old))) }
    {
        match flat_node {
            FlatNode::Tell(told) => {
                self.add(FlatNode::Tell(told))?;
                self.add(FlatNode::Else(signal_on(self.alloc, binder)?))
            }
            other => self.add(other),
        }
    }

    /// Makes each tell of the first symbolic agent wait for the signal with this binder to be absent.
    fn guard(&mut self, binder: u32) -> Result<(), ExpandFault>
        requires { length (emitted_nodes self.old) ≤ most_nodes }
        ensures emitted { (a : SymbolicAgent) (rest : List AFlatNode) → emitted_nodes self.old ≡ flat_nodes a ++ rest
            → OnOk result (emitted_nodes self.new ≡ flat_nodes (guarded binder a) ++ rest) }
        ensures room { OnOk result (length (emitted_nodes self.new) ≤ most_nodes) }
        ensures fault { (a : SymbolicAgent) (rest : List AFlatNode) → emitted_nodes self.old ≡ flat_nodes a ++ rest
            → IfErr result (IsTooLarge (symbolic_size (guarded binder a) + length rest)) }
    {
        let mut body = self.take_first()?;
        while let Some(flat_node) = body.pop() {
            self.put_guarded(binder, flat_node)?;
        }
        Ok(())
    }

    /// Makes the first symbolic agent run up to the first instant that entails the constraint. The binder is that of
    /// the hidden signal.
    pub(crate) fn watching(&mut self, binder: u32, ask: &Constraint) -> Result<(), ExpandFault>
        requires { length (emitted_nodes self.old) ≤ most_nodes }
        ensures emitted { (a : SymbolicAgent) (rest : List AFlatNode) → emitted_nodes self.old ≡ flat_nodes a ++ rest
            → OnOk result (emitted_nodes self.new ≡ flat_nodes (watching binder ask.now a) ++ rest) }
        ensures room { OnOk result (length (emitted_nodes self.new) ≤ most_nodes) }
        ensures fault { (a : SymbolicAgent) (rest : List AFlatNode) → emitted_nodes self.old ≡ flat_nodes a ++ rest
            → IfErr result (IsTooLarge (symbolic_size (watching binder ask.now a) + length rest)) }
    {
        self.guard(binder)?;
        self.check_room(12)?;
        self.put_stop(binder, ask)?;
        self.always()?;
        self.add(FlatNode::Par)?;
        self.add(FlatNode::New { binder })?;
        Ok(())
    }

    /// Puts a node in front of its parts, which are on the clock; what it leaves for later is put on the clock too.
    fn put_clocked(
        &mut self,
        binder: u32,
        ask: &Constraint,
        flat_node: FlatNode,
    ) -> Result<(), ExpandFault>
        requires { length (emitted_nodes self.old) ≤ most_nodes }
        ensures emitted { (d : SymbolicAgent) (rest : List AFlatNode) → flat_node ≡ first_flat_node d
            → emitted_nodes self.old
            ≡ flat_map (λ part. flat_nodes (clocked binder ask.now part)) (symbolic_parts d) ++ rest
            → OnOk result (emitted_nodes self.new ≡ flat_nodes (clocked binder ask.now d) ++ rest) }
        ensures room { OnOk result (length (emitted_nodes self.new) ≤ most_nodes) }
        ensures fault { (d : SymbolicAgent) (rest : List AFlatNode) → flat_node ≡ first_flat_node d
            → emitted_nodes self.old
            ≡ flat_map (λ part. flat_nodes (clocked binder ask.now part)) (symbolic_parts d) ++ rest
            → IfErr result (IsTooLarge (symbolic_size (clocked binder ask.now d) + length rest)) }
    {
        match flat_node {
            FlatNode::Next => {
                self.when(binder, ask)?;
                self.add(FlatNode::Next)
            }
            FlatNode::Hence => {
                self.add(FlatNode::Then(constraint_copy(self.alloc, ask)?))?;
                self.add(FlatNode::Hence)
            }
            other => self.add(other),
        }
    }

    /// Puts what the first symbolic agent leaves for later on the clock.
    fn clock(&mut self, binder: u32, ask: &Constraint) -> Result<(), ExpandFault>
        requires { length (emitted_nodes self.old) ≤ most_nodes }
        ensures emitted { (a : SymbolicAgent) (rest : List AFlatNode) → emitted_nodes self.old ≡ flat_nodes a ++ rest
            → OnOk result (emitted_nodes self.new ≡ flat_nodes (clocked binder ask.now a) ++ rest) }
        ensures room { OnOk result (length (emitted_nodes self.new) ≤ most_nodes) }
        ensures fault { (a : SymbolicAgent) (rest : List AFlatNode) → emitted_nodes self.old ≡ flat_nodes a ++ rest
            → IfErr result (IsTooLarge (symbolic_size (clocked binder ask.now a) + length rest)) }
    {
        let mut body = self.take_first()?;
        while let Some(flat_node) = body.pop() {
            self.put_clocked(binder, ask, flat_node)?;
        }
        Ok(())
    }

    /// Makes the first symbolic agent run on the instants that entail the constraint. The binder is that of the
    /// hidden signals.
    pub(crate) fn timed(&mut self, binder: u32, ask: &Constraint) -> Result<(), ExpandFault>
        requires { length (emitted_nodes self.old) ≤ most_nodes }
        ensures emitted { (a : SymbolicAgent) (rest : List AFlatNode) → emitted_nodes self.old ≡ flat_nodes a ++ rest
            → OnOk result (emitted_nodes self.new ≡ flat_nodes (timed binder ask.now a) ++ rest) }
        ensures room { OnOk result (length (emitted_nodes self.new) ≤ most_nodes) }
        ensures fault { (a : SymbolicAgent) (rest : List AFlatNode) → emitted_nodes self.old ≡ flat_nodes a ++ rest
            → IfErr result (IsTooLarge (symbolic_size (timed binder ask.now a) + length rest)) }
    {
        self.clock(binder, ask)?;
        self.when(binder, ask)
    }
}
