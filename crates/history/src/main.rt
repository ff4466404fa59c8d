// Runs one list of calls twice over document 01's net A, each time on a freshly loaded area: first every call, then the
// list without its quotes, on an area that held other words before it was loaded. Work memory, path buffer and answer
// buffer hold other words in the second run, and have the same lengths. By the claim of the crate `ledger` each remaining call is answered
// as before, and the bookings at the end are the same, in the same words.
//
// A line is the call's row, its name, and then problem, delay, cost and links; or 0 and the refusal's number; or
// released; or, of all jobs in one call, how many they are and the 36 words that answer each. After the calls come the held circuits as they stand in the area, each with its units and its links, and
// then each link's free units.
//
// The contracts tie the program to that claim: each run leaves the area that the history of its calls leaves and puts the text
// of its answers, and so `both_runs` ensures that the second text is the first one's without its quotes, and that the
// bookings are the same. The text of a run's calls is written once, at its end.
#![tactic(auto)]

ghost use Rattle.std.specs.Prelude.{◌≡◌, true, false};
ghost use Rattle.area.specs.Station.{held_words};
ghost use Rattle.area.specs.Refusals.{grants};
ghost use Rattle.area.specs.Load.{load_answer, area_loaded};
ghost use Rattle.ledger.specs.History.{answers, area_at_end, bookings};
ghost use Rattle.history.specs.Lines.{lines_of, unquoted_lines, rows_made, run_text};
ghost use Rattle.cases.specs.Document01.{links_a, unheld};
ghost use Rattle.call_list.specs.Calls.{calls};

mod bookings;
mod list;

use crate::list::{Text, every_call};
use area::Refusal;
use arrayvec::ArrayVec;
use cases::{NET_A, NONE_HELD};
use station::layout::AREA_WORDS;
use station::load::load;

// Writes these bytes. A write that fails is not told: the status is 0.
fn write(rt: &impl Print, bytes: &[u8]) {
    let _ = rt.write_all(bytes);
}

fn write_loading(rt: &impl Print, loading: Result<(), Refusal>) {
    let mut text = ArrayVec::<u8, 13>::new();
    answer_lines::put_loading(&mut text, loading);
    write(rt, &text);
}

// Loads net A, which every area that is long enough takes.
#[tactic(auto, using(call_list::proofs::Runs::load_accepts))]
fn load_net(rt: &impl Print, area: &mut [u32; AREA_WORDS])
    ensures accepted { load_answer area.old (unheld links_a) ≡ grants tt }
    ensures area { area.new ≡ area_loaded area.old (unheld links_a) }
{
    write_loading(rt, load(4, &NET_A, &NONE_HELD, area));
}

// The list from a load on: its text, and then what is held and free. Answers the text.
fn run(rt: &impl Print, struck: bool, area: &mut [u32; AREA_WORDS]) -> Text
    ensures accepted { load_answer area.old (unheld links_a) ≡ grants tt }
    ensures area { area.new ≡ area_at_end (area_loaded area.old (unheld links_a)) (calls struck) }
    ensures text { result.items ≡ run_text struck (area_loaded area.old (unheld links_a)) }
{
    load_net(rt, area);
    let text = every_call(struck, area);
    write(rt, &text);
    bookings::circuits_held(rt, area);
    bookings::every_free(rt, area);
    text
}

// Both runs, each on an area of its own; answers their texts. By the third demand, whatever the areas held, the second run
// answers each remaining call as the first did, so its text is the first one's without the lines of the quotes; and both leave
// the same bookings, in the same words.
fn both_runs(
    rt: &impl Print,
    first: &mut [u32; AREA_WORDS],
    second: &mut [u32; AREA_WORDS],
) -> (Text, Text)
    ensures first { first.new ≡ area_at_end (area_loaded first.old (unheld links_a)) (calls false) }
    ensures second { second.new ≡ area_at_end (area_loaded second.old (unheld links_a)) (calls true) }
    ensures text { result.0.items ≡ lines_of (rows_made false) (answers (area_loaded first.old (unheld links_a)) (calls false)) }
    ensures unquoted { result.1.items ≡ unquoted_lines (rows_made false) (answers (area_loaded first.old (unheld links_a)) (calls false)) }
    ensures same { bookings second.new ≡ bookings first.new }
    ensures words { held_words second.new ≡ held_words first.new }
{
    let text = run(rt, false, first);
    write(rt, b"quotes struck\n");
    let unquoted = run(rt, true, second);
    (text, unquoted)
}

// Before it is loaded, the second area seems to hold seven circuits with number 7.
fn main(rt: HostRuntime) {
    let mut first: [u32; AREA_WORDS] = [88; AREA_WORDS];
    let mut second: [u32; AREA_WORDS] = [7; AREA_WORDS];
    both_runs(&rt, &mut first, &mut second);
}
