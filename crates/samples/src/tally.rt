// What verdicts add to the result: the greatest rounds of a surround among them, and how many of them are yes.
ghost use Rattle.std.specs.Prelude.{◌≡◌, ◌+◌, ◌<◌, ◌^◌};
ghost use Rattle.samples.specs.Tally.{together};

#[derive(Clone, Copy)]
pub struct Tally {
    pub rounds: u64,
    pub yes: u64,
}

impl Tally {
    // Of no verdict.
    pub const NONE: Tally = Tally { rounds: 0, yes: 0 };

    // Of these verdicts and the others. No `impl Add`: that may ask nothing, and the sum of yes verdicts has to fit.
    pub fn with(self, other: Tally) -> Tally
        requires { self.yes + other.yes < 2 ^ 64 }
        ensures { result ≡ together self other }
    {
        Tally {
            rounds: self.rounds.max(other.rounds),
            yes: self.yes + other.yes,
        }
    }
}
