//! The numbers by which programs and traces are generated.
ghost use Rattle.std.specs.Prelude.{◌≡◌, ◌<◌};
ghost use Rattle.trace_text.specs.Draws.{draw_after, drawn};

/// The factor between a number of the sequence and the next.
const FACTOR: u64 = 1_103_515_245;

/// What is added to it.
const SUMMAND: u64 = 12_345;

/// One more than the greatest number of the sequence.
const MODULUS: u64 = 0x8000_0000;

/// A place in the sequence that a number starts.
#[derive(Debug, Drop)]
pub(crate) struct Draws {
    last: u32,
}

impl Draws {
    /// Starts the sequence with the number.
    pub(crate) fn new(start: u32) -> Draws
        ensures { result.last ≡ start }
    {
        Draws { last: start }
    }

    /// Draws a number below the given one.
    #[tactic(auto, unfolding(crate::specs::Draws::draw_after, crate::specs::Draws::next))]
    pub(crate) fn draw(&mut self, below: u32) -> u32
        requires { 0 < below }
        ensures drawn { result ≡ drawn self.old.last 0 below }
        ensures after { self.new.last ≡ draw_after self.old.last 1 }
    {
        let next = (u64::from(self.last) * FACTOR + SUMMAND) % MODULUS;
        self.last = next as u32;
        self.last / 65_536 % below
    }
}
