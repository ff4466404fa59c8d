// What a call answers, as C gets it: a code, and the words of what is granted in the answer array.
ghost use Rattle.std.specs.Prelude.{◌≡◌, ℕ, List};
ghost use Rattle.area.specs.Refusals.{numbered};
ghost use Rattle.line.specs.Codes.{code, words_after};

use area::Refusal;
use link_format::Size;
use network::{Grant, Terms};

// What a call grants, as the words of its answer array.
pub trait Words<const N: usize> {
    ghost words: { Self → List ℕ };

    fn words(self) -> [u32; N]
        ensures { result ≡ words self };
}

impl Words<4> for Grant {
    ghost use Rattle.line.specs.Codes.{grant_words};

    ghost words = { grant_words };

    #[tactic(auto, unfolding(crate::specs::Codes::grant_words))]
    fn words(self) -> [u32; 4] {
        [self.problem.into(), self.delay, self.cost, self.links]
    }
}

// A listing's count, free units, or how many jobs.
impl Words<1> for u32 {
    ghost use Rattle.line.specs.Codes.{value_words};

    ghost words = { value_words };

    #[tactic(auto, unfolding(crate::specs::Codes::value_words))]
    fn words(self) -> [u32; 1] {
        [self]
    }
}

impl Words<4> for Terms {
    ghost use Rattle.line.specs.Codes.{terms_words};

    ghost words = { terms_words };

    #[tactic(auto, unfolding(crate::specs::Codes::terms_words))]
    fn words(self) -> [u32; 4] {
        [
            self.units,
            self.delay_bound,
            self.cost_bound,
            self.coefficient,
        ]
    }
}

impl Words<2> for Size {
    ghost use Rattle.line.specs.Codes.{size_words};

    ghost words = { size_words };

    #[tactic(auto, unfolding(crate::specs::Codes::size_words))]
    fn words(self) -> [u32; 2] {
        [self.nodes, self.links]
    }
}

// 0, or document 01's number.
#[tactic(auto, unfolding(crate::specs::Codes::code))]
pub(crate) fn code(answer: Result<(), Refusal>) -> u32
    ensures { result ≡ code (numbered answer) }
{
    match answer {
        Ok(()) => 0,
        Err(refusal) => u32::from(refusal),
    }
}

// The same, and the words of what is granted in `array`; a refusal leaves it as it was.
#[tactic(auto, unfolding(crate::specs::Codes::code, crate::specs::Codes::words_after))]
pub(crate) fn tell<const N: usize, T: Words<N>>(
    answer: Result<T, Refusal>,
    array: &mut [u32; N],
) -> u32
    ensures code { result ≡ code (numbered answer) }
    ensures array { array.new ≡ words_after T.words (numbered answer) array.old }
{
    match answer {
        Ok(granted) => {
            *array = granted.words();
            0
        }
        Err(refusal) => refusal.into(),
    }
}
