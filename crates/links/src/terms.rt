// The ranges of what a job asks for.
ghost use Rattle.std.specs.Prelude.{◌≡◌};
ghost use Rattle.network.specs.Ranges.{terms_fit};

use network::{Terms, limits};

// Whether the units, the bounds D and C and the coefficient are in document 01's ranges.
#[tactic(auto, unfolding(network::specs::Ranges::terms_fit))]
pub fn terms_fit(t: Terms) -> bool
    ensures { result ≡ terms_fit t }
{
    (limits::LEAST_UNITS..=limits::MOST_UNITS).contains(&t.units)
        && (limits::LEAST_BOUND..=limits::MOST_DELAY_BOUND).contains(&t.delay_bound)
        && (limits::LEAST_BOUND..=limits::MOST_COST_BOUND).contains(&t.cost_bound)
        && (limits::LEAST_COEFFICIENT..=limits::MOST_COEFFICIENT).contains(&t.coefficient)
}
