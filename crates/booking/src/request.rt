// The ranges of a request and of a circuit number.
ghost use Rattle.std.specs.Prelude.{◌≡◌};
ghost use Rattle.network.specs.Ranges.{in_range};
ghost use Rattle.area.specs.Layout.{least_number, most_number};
ghost use Rattle.rules.specs.Requests.{request_fits};

use links::terms::terms_fit;
use network::Request;
use station::layout;

// Whether `r` is a request among `n` nodes.
#[tactic(auto, unfolding(rules::specs::Requests::request_fits))]
pub fn request_fits(n: usize, r: Request) -> bool
    ensures { result ≡ request_fits n r }
{
    (r.source as usize) < n && (r.target as usize) < n && r.source != r.target && terms_fit(r.terms)
}

// Whether this is a circuit number.
pub fn number_in_range(number: u32) -> bool
    ensures { result ≡ in_range least_number most_number number }
{
    (layout::LEAST_NUMBER..=layout::MOST_NUMBER).contains(&number)
}
