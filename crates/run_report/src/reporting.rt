//! The report of an instant, from its net and the words of its output.
ghost use Rattle.std.specs.Prelude.{◌≡◌, ℕ, List};
ghost use Rattle.agent_core.specs.declared.node.Closure.{Closure};
ghost use Rattle.agent_core.specs.Programs.{CoreProgram};
ghost use Rattle.instant_net.specs.Opened.{IsNetOf};
ghost use Rattle.instant_net.specs.Words.{store_in, AreWords};
ghost use Rattle.run_report.specs.Reports.{report_of};

use crate::counts::Report;
use instant_net::{Net, Words, holds, reaches};
use residuals::ran;

/// The counts of the instant whose net this is, where these are the words of its output and the next instant has so many
/// roots. For each leaf, and for each then and else, it looks at the asks above, again and again where asks stand under
/// one another.
pub fn report(net: &Net, words: &Words, next: usize) -> Report
    requires { AreWords net.now.cells words.now }
    ensures { (p : CoreProgram) (table : List ℕ) (rs : List Closure) (t : ℕ) → IsNetOf p table rs t net.now
        → result ≡ report_of p rs t (store_in net.now.cells words.now) next }
{
    let mut counts = Report {
        ran: ran(net, words),
        confirmed: 0,
        refuted: 0,
        parked: 0,
        next: next as u64,
    };
    for guard in 0..net.guards() {
        if reaches(net, words, guard) {
            counts.count(net.is_else(guard), holds(net, words, guard));
        }
    }
    counts
}
