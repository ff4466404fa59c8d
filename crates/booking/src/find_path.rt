// The route search on a station's usable links. Quote and admission come here past their checks.
ghost use Rattle.std.specs.Prelude.{◌≡◌};
ghost use Rattle.area.specs.Refusals.{numbered};
ghost use Rattle.rules.specs.Replies.{answer_of, path_after};
ghost use Rattle.rules.specs.Calls.{searched};
ghost use Rattle.rules.specs.Meaning.{books_in};
ghost use Rattle.rules.specs.SearchableArea.{SearchableArea};

use area::Refusal;
use network::limits::MOST_LINKS;
use network::{Grant, Request};
use route::Network;
use station::Station;
use station::usable::put_usable;

// Searches for a path for `r` on a station. Both callers come here past their checks. Work memory is open after.
pub fn find_path(
    station: &Station<'_>,
    work: &mut [u32],
    path: &mut [u32],
    r: Request,
) -> Result<Grant, Refusal>
    requires { SearchableArea station.now.area.now work.old path.old r }
    ensures answer { numbered result ≡ answer_of (searched (books_in station.now.area.now) r) }
    ensures path { path.new ≡ path_after (searched (books_in station.now.area.now) r) path.old }
{
    let mut usable = [false; MOST_LINKS];
    put_usable(station.free, r.terms.units, &mut usable);
    let mut delays = [0; MOST_LINKS];
    station.put_delays(r.target as usize, &mut delays);
    let mut costs = [0; MOST_LINKS];
    station.put_costs(&mut costs);
    let network = Network {
        nodes: station.nodes(),
        links: station.links(),
        usable: &usable,
        delays: &delays,
        costs: &costs,
    };
    let grant = route::search(&network, work, path, r)?;
    Ok(grant)
}
