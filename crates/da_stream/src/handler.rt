// What is done with a line.

ghost use Rattle.std.specs.Prelude.{ℕ};
ghost use Rattle.da_base.specs.Words.{Bytes};
ghost use Rattle.da_stream.specs.LineRuns.{TakesOrStops};

/// What takes the lines of an input, one after another. It may hold references to objects that it works on, as a sink
/// for its answers.
pub trait LineHandler {
    /// Why it ends the run.
    type Stop;

    /// Its references are the same.
    ghost same: { Self → Self → Type 0 };

    /// It took the line of this number, and the run goes on.
    ghost takes: { ℕ → Bytes → Self → Self → Type 0 };

    /// It ended the run at the line of this number.
    ghost stops: { ℕ → Bytes → Self → Self → Self.Stop → Type 0 };

    /// Takes the line of this number, counted from 1. The line is given without its LF. An error ends the run.
    fn take(&mut self, number: u64, line: &[u8]) -> Result<(), Self::Stop>
        ensures same { same self.old self.new }
        ensures does { TakesOrStops takes stops number line.now self.old self.new result };

    ghost same_as_itself: { (x : Self) → same x x };

    ghost same_further: { (x y z : Self) → same x y → same y z → same x z };
}
