// Formula 1 of the paper, for one link.
ghost use Rattle.std.specs.Prelude.{◌≡◌, ◌≤◌};
ghost use Rattle.network.specs.Limits.{most_bound, most_weight, most_x};
ghost use Rattle.network.specs.Scale.{scaled};

// ⌈weight × x / bound⌉. With a bound of 0 nothing may be spent: a link that weighs nothing has nothing, and any other is over x
// by itself. The ranges are document 01's: the calls have checked weight and bound, and x is at most the greatest coefficient
// times the most links of a path.
#[tactic(auto, unfolding(network::specs::Scale::scaled))]
pub fn scale(weight: u32, x: u32, bound: u32) -> u32
    requires weight_le_most_weight { weight ≤ most_weight }
    requires x_le_most_x { x ≤ most_x }
    requires bound_le_most_bound { bound ≤ most_bound }
    ensures { result ≡ scaled x bound weight }
{
    match (bound, weight) {
        (0, 0) => 0,
        (0, _) => x + 1,
        (_, _) => (weight * x + (bound - 1)) / bound,
    }
}
