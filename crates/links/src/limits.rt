// Document 01's lengths and ranges of links, requests and the search: the code's names for them and the definitions' names
// say the same numbers. Nobody needs the answer: the function is there for its contract.
ghost use Rattle.std.specs.Prelude.{◌≡◌};
ghost use Rattle.network.specs.Limits.{figures};

use network::limits;
use network::limits::Limits;

// Every number of `network::limits`.
pub fn figures() -> Limits
    ensures { result ≡ figures }
{
    Limits {
        least_nodes: limits::LEAST_NODES,
        most_nodes: limits::MOST_NODES,
        most_links: limits::MOST_LINKS,
        link_words: limits::LINK_WORDS,
        most_delay: limits::MOST_DELAY,
        most_cost: limits::MOST_COST,
        most_capacity: limits::MOST_CAPACITY,
        most_hold: limits::MOST_HOLD,
        least_path_links: limits::LEAST_PATH_LINKS,
        most_path_links: limits::MOST_PATH_LINKS,
        least_units: limits::LEAST_UNITS,
        most_units: limits::MOST_UNITS,
        least_bound: limits::LEAST_BOUND,
        most_delay_bound: limits::MOST_DELAY_BOUND,
        most_cost_bound: limits::MOST_COST_BOUND,
        least_coefficient: limits::LEAST_COEFFICIENT,
        most_coefficient: limits::MOST_COEFFICIENT,
        most_x: limits::MOST_X,
        work_words: limits::WORK_WORDS,
        path_words: limits::PATH_WORDS,
    }
}
