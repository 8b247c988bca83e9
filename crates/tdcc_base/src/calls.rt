//! The calls of a device in memory, some of which fail.
ghost use Rattle.std.specs.Prelude.{◌≡◌, ◌≤◌, ◌↔◌, IsTrue};
ghost use Rattle.tdcc_base.specs.Causes.{next_count};

/// The calls of a device in memory, numbered from 0: which are to fail, and how many have failed.
#[derive(Drop)]
pub struct Calls {
    fails: Vec<u64>,
    next: u64,
    faults: u64,
}

impl Calls {
    ghost use Rattle.tdcc_base.specs.Calls.{failing_calls, next_number, IsListed, AreNew};

    /// No call yet. Those with these numbers are to fail.
    pub(crate) fn new(fails: Vec<u64>) -> Calls
        ensures { AreNew result fails.items }
    {
        Calls {
            fails,
            next: 0,
            faults: 0,
        }
    }

    /// Numbers a call, and answers whether it is to fail.
    pub(crate) fn begin(&mut self) -> bool
        ensures fails { IsTrue result ↔ IsListed self.old }
        ensures next { next_number self.new ≡ next_count (next_number self.old) }
        ensures list { failing_calls self.new ≡ failing_calls self.old }
        ensures faults { self.new.faults ≡ self.old.faults }
    {
        let call = self.next;
        self.next = call.saturating_add(1);
        self.fails.contains(&call)
    }

    /// Counts a call that fails.
    pub(crate) fn fail(&mut self)
        ensures next { next_number self.new ≡ next_number self.old }
        ensures list { failing_calls self.new ≡ failing_calls self.old }
        ensures faults { self.new.faults ≡ next_count self.old.faults }
        ensures faults_only_rise { self.old.faults ≤ self.new.faults }
    {
        self.faults = self.faults.saturating_add(1);
    }
}
