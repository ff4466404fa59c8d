// Runs document 01's worked cases M1 to M11 through the calls themselves, and after them the calls that no case makes: a
// quote on an area that nothing was loaded into, listing, free units, releases and a refused load. A line is what it is
// about and then problem, delay, cost and links; or 0 and the refusal's number. What the line of a case is about are its
// number, that of its area and those of its call, with an equals sign behind them. Work memory starts as 77 in every word
// and is handed from one call to the next.
//
// The contracts of `list` tie the lines of the cases to the list of the definition: `cases_text` ensures that its text is that
// of document 01's replies to them. The text is written once.
#![tactic(auto)]

ghost use Rattle.std.specs.Prelude.{◌≤◌};
ghost use Rattle.area.specs.Refusals.{numbered};
ghost use Rattle.answer_lines.specs.Answers.{answer_room};

mod list;

use crate::list::{UNWRITTEN, call, cases_text};
use answer_lines::Granted;
use area::Refusal;
use arrayvec::ArrayVec;
use booking::calls;
use cases::Asked::{Admission, Quote};
use cases::{Asked, NET_A, NET_B, NONE_HELD, asking};
use network::Request;
use network::limits::WORK_WORDS;
use station::layout::AREA_WORDS;
use station::load::load;
use station::reads;

// Writes these bytes. A write that fails is not told: the status is 0.
fn write(rt: &impl Print, bytes: &[u8]) {
    let _ = rt.write_all(bytes);
}

// The cases, on an area that nothing was loaded into.
fn write_cases(rt: &impl Print, work: &mut [u32; WORK_WORDS]) {
    let mut area: [u32; AREA_WORDS] = [88; AREA_WORDS];
    let text = cases_text(&mut area, work);
    write(rt, &text);
}

// A quote or an admission, and what it answered.
fn write_call(
    rt: &impl Print,
    name: &[u8],
    area: &mut [u32],
    work: &mut [u32; WORK_WORDS],
    asked: Asked,
) {
    let mut path = UNWRITTEN;
    let answer = call(area, work, &mut path, asked);
    let mut text = ArrayVec::<u8, 375>::new();
    answer_lines::put_routed(&mut text, answer, &path);
    write(rt, name);
    write(rt, &text);
}

// What another call answered: no longer than a refusal.
fn write_told<T: Granted<23>>(rt: &impl Print, name: &[u8], answer: Result<T, Refusal>)
    requires { answer_room T.room (numbered answer) ≤ 23 }
{
    let mut text = ArrayVec::<u8, 23>::new();
    answer_lines::put_answer(&mut text, answer);
    write(rt, name);
    write(rt, &text);
}

// Loads a link table and hold times into the area.
fn load_net(rt: &impl Print, n: u32, links: &[u32], hold_times: &[u32], area: &mut [u32]) {
    let mut text = ArrayVec::<u8, 13>::new();
    answer_lines::put_loading(&mut text, load(n, links, hold_times, area));
    write(rt, &text);
}

// As M3 asks, for some units.
fn request(units: u32) -> Request {
    asking!(0, 3, units, 8, 20, 8)
}

// How many circuits are held. Answers the number of the one that is, where one is.
fn held(rt: &impl Print, area: &[u32]) -> Option<u32> {
    let mut numbers: [u32; 1] = [0];
    let listed = reads::list(area, &mut numbers);
    write_told(rt, b"held", listed);
    (listed == Ok(1)).then_some(numbers[0])
}

// A link's free units.
fn free(rt: &impl Print, area: &[u32], link: u32) {
    write_told(rt, b"free", reads::free_units(area, link));
}

// Which circuit is held, its number written as a reading is, and what is free beside it.
fn one_held(rt: &impl Print, area: &[u32]) {
    if let Some(number) = held(rt, area) {
        write_told::<u32>(rt, b"number", Ok(number));
    }
    free(rt, area, 2);
    free(rt, area, 3);
}

// The release of circuit 7.
fn release(rt: &impl Print, area: &mut [u32]) {
    write_told(rt, b"release", calls::release(area, 7));
}

// Circuit 7 released, once and again, and what is then held and free.
fn releases(rt: &impl Print, area: &mut [u32]) {
    release(rt, area);
    release(rt, area);
    held(rt, area);
    free(rt, area, 2);
    free(rt, area, 4);
}

// The admission of M8 with circuit number 7, on net A.
fn one_circuit(rt: &impl Print, area: &mut [u32], work: &mut [u32; WORK_WORDS]) {
    load_net(rt, 4, &NET_A, &NONE_HELD, area);
    write_call(rt, b"admission", area, work, Admission(7, request(4)));
    one_held(rt, area);
    releases(rt, area);
}

// What is free of each link of a loaded net: its capacity.
fn capacities(rt: &impl Print, area: &[u32]) {
    for link in 0..4 {
        free(rt, area, link);
    }
}

// No links, net B with its capacities, a load with too few nodes, and one with too few hold times.
fn loads(rt: &impl Print, area: &mut [u32]) {
    load_net(rt, 4, &[], &NONE_HELD, area);
    load_net(rt, 4, &NET_B, &NONE_HELD, area);
    capacities(rt, area);
    load_net(rt, 1, &NET_B, &NONE_HELD, area);
    load_net(rt, 4, &NET_B, &NONE_HELD[1..], area);
}

// The calls that no case makes: at first a quote on an area that nothing was loaded into.
fn other_calls(rt: &impl Print, work: &mut [u32; WORK_WORDS]) {
    let mut area: [u32; AREA_WORDS] = [88; AREA_WORDS];
    write_call(rt, b"blank", &mut area, work, Quote(request(1)));
    one_circuit(rt, &mut area, work);
    loads(rt, &mut area);
}

fn main(rt: HostRuntime) {
    let mut work: [u32; WORK_WORDS] = [77; WORK_WORDS];
    write_cases(&rt, &mut work);
    other_calls(&rt, &mut work);
}
