// What a search answers: a granted path, or why there is none.

// The two problems that a request is reduced to. A reduction's discriminant is document 01's number for it.
#[derive(Clone, Copy, Debug, PartialEq, Eq)]
pub enum Reduction {
    // Delay is kept and cost is scaled.
    One = 1,
    // Cost is kept and delay is scaled.
    Two = 2,
}

impl From<Reduction> for u32 {
    ghost use Rattle.std.specs.Prelude.{◌≡◌};
    ghost use Rattle.network.specs.Reduce.{problem_number};

    ghost from_gives = { λ p k. k ≡ problem_number p };

    fn from(p: Reduction) -> u32 {
        p as u32
    }
}

// Why a search grants nothing.
#[derive(Clone, Copy, Debug, PartialEq, Eq)]
pub enum NoRoute {
    // No usable path exists.
    NoPath,
    // Usable paths exist, and none solves either problem.
    NoSolution,
}
