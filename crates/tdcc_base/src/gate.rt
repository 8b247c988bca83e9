//! A gate that workers pass, by which a test may order their acts.
ghost use Rattle.std.specs.Prelude.{ℕ, ◌<◌};

/// Something that has done acts, which can be counted.
pub trait Acted {
    /// How many acts it has done.
    ghost acts: { Self → ℕ };

    /// The number by which a gate knows it.
    fn number(&self) -> u64;
}

/// A place that a worker passes once it has acted. Passing changes nothing but the gate's own notes,
/// of which no contract speaks.
pub trait Gate: Sync {
    /// Lets `by` pass, which has done at least one act.
    fn pass<A: Acted>(&self, by: &A)
        requires { 0 < A.acts by.now };
}

/// A gate that everything passes at once.
#[derive(Clone, Copy, Debug)]
pub struct OpenGate;

impl Gate for OpenGate {
    fn pass<A: Acted>(&self, _by: &A) {}
}
