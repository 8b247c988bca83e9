//! How many leaves of an instant run.
ghost use Rattle.std.specs.Prelude.{◌≡◌, ◌≤◌, ℕ, List};
ghost use Rattle.agent_core.specs.declared.node.Closure.{Closure};
ghost use Rattle.agent_core.specs.Programs.{CoreProgram};
ghost use Rattle.agent_core.specs.Leaves as leaves;
ghost use Rattle.instant_net.specs.Limits.{most_leaves};
ghost use Rattle.instant_net.specs.Opened.{IsNetOf};
ghost use Rattle.instant_net.specs.Words.{store_in, AreWords};

use instant_net::{Net, Words, runs};

/// How many leaves the words run, as final store, where the net is that of some roots at its instant.
pub fn ran(net: &Net, words: &Words) -> u64
    requires { AreWords net.now.cells words.now }
    ensures counts { (p : CoreProgram) (table : List ℕ) (rs : List Closure) (t : ℕ) → IsNetOf p table rs t net.now
        → result ≡ leaves.ran p rs t (store_in net.now.cells words.now) }
    ensures bounded { result ≤ most_leaves }
{
    let mut ran = 0;
    for leaf in 0..net.leaves() {
        if runs(net, words, leaf) {
            ran += 1;
        }
    }
    ran
}
