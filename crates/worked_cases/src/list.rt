// Document 01's cases, each made on its area and its line put into a text: the text is by equation that of the cases of the
// definition, with document 01's replies.
ghost use Rattle.std.specs.Prelude.{◌≡◌, ◌+◌, ◌*◌, ◌≤◌, ◌++◌, length};
ghost use Rattle.arrayvec.specs.ArrayVec.{array_vec_len};
ghost use Rattle.area.specs.Station.{station};
ghost use Rattle.area.specs.Formed.{WellFormed};
ghost use Rattle.area.specs.Refusals.{numbered};
ghost use Rattle.rules.specs.Replies.{answer_of, path_after};
ghost use Rattle.cases.specs.declared.Asked.TheVariants.{Admission};
ghost use Rattle.cases.specs.Document01.{area_in, rows, asked_numbers, m8_circuit, m8};
ghost use Rattle.cases.specs.Replied.{replied, left_by};
ghost use Rattle.worked_cases.specs.Grounds.{links_for};
ghost use Rattle.worked_cases.specs.Lines.{name_text, case_lines, row_line, row_lines};

use area::Refusal;
use arrayvec::ArrayVec;
use booking::calls;
use booking::quote::quote;
use cases::Asked::{Admission, Quote};
use cases::Ground::{AfterM8, OnA, OnB, OnNone};
use cases::{Asked, Ground, NET_A, NET_B, NONE_HELD, Row, asking};
use network::Grant;
use network::limits::{PATH_WORDS, WORK_WORDS};
use station::layout::AREA_WORDS;
use station::load::load;

// A line has at most 500 bytes, so a text has room for those of all cases.
pub(crate) type Text = ArrayVec<u8, 8000>;

// The path buffer before a call: 99 in every word, a number that no link has, so that a link that was not written shows.
pub(crate) const UNWRITTEN: [u32; PATH_WORDS] = [99; PATH_WORDS];

// A case's number, its area and its call.
macro_rules! row {
    ($number:literal, $stands:expr, $asked:expr) => {
        Row {
            number: $number,
            stands: $stands,
            asked: $asked,
        }
    };
}

// Which row is M8's admission.
const M8: usize = 8;

// The cases.
const ROWS: [Row; 15] = [
    row!(1, OnA, Quote(asking!(0, 3, 1, 8, 20, 5))),
    row!(2, OnA, Quote(asking!(0, 3, 1, 8, 20, 6))),
    row!(3, OnA, Quote(asking!(0, 3, 1, 8, 20, 8))),
    row!(4, OnA, Quote(asking!(0, 3, 1, 8, 15, 8))),
    row!(5, OnA, Quote(asking!(0, 3, 1, 8, 14, 8))),
    row!(6, OnA, Quote(asking!(0, 3, 1, 9, 20, 8))),
    row!(7, OnA, Quote(asking!(0, 3, 10, 8, 20, 8))),
    row!(7, OnA, Quote(asking!(0, 3, 11, 8, 20, 8))),
    row!(8, OnA, Admission(1, asking!(0, 3, 4, 8, 20, 8))),
    row!(8, AfterM8, Quote(asking!(0, 3, 6, 8, 20, 8))),
    row!(8, AfterM8, Quote(asking!(0, 3, 7, 8, 20, 8))),
    row!(8, AfterM8, Quote(asking!(0, 3, 7, 9, 20, 8))),
    row!(9, OnA, Quote(asking!(0, 0, 1, 8, 20, 8))),
    row!(10, OnNone, Quote(asking!(0, 3, 1, 8, 20, 8))),
    row!(11, OnB, Quote(asking!(0, 3, 1, 2, 8, 4))),
];

// The rows: those of the definition's cases.
#[tactic(auto, unfolding(cases::specs::Document01::cases))]
fn table() -> &'static [Row; 15]
    ensures { result.now ≡ rows }
{
    &ROWS
}

// Makes a case's call and answers what it answers.
pub(crate) fn call(
    area: &mut [u32],
    work: &mut [u32; WORK_WORDS],
    path: &mut [u32; PATH_WORDS],
    asked: Asked,
) -> Result<Grant, Refusal>
    ensures answer { numbered result ≡ answer_of (replied area.old asked) }
    ensures path { path.new ≡ path_after (replied area.old asked) path.old }
    ensures area { area.new ≡ left_by area.old asked }
{
    match asked {
        Quote(r) => quote(area, work, path, r),
        Admission(c, r) => calls::admit(area, work, path, c, r),
    }
}

// The links that are loaded for it.
fn net(ground: Ground) -> &'static [u32]
    ensures { result.now ≡ links_for ground }
{
    match ground {
        OnA | AfterM8 => &NET_A,
        OnNone => &[],
        OnB => &NET_B,
    }
}

// M8's admission, as its row has it.
fn admit_m8(area: &mut [u32; AREA_WORDS], work: &mut [u32; WORK_WORDS])
    ensures { area.new ≡ left_by area.old (Admission m8_circuit m8) }
{
    let mut path = UNWRITTEN;
    let _ = call(area, work, &mut path, table()[M8].asked);
}

// Makes of the area, whatever it held, one that reads as this.
fn prepare(area: &mut [u32; AREA_WORDS], work: &mut [u32; WORK_WORDS], ground: Ground)
    ensures formed { WellFormed area.new }
    ensures station { station area.new ≡ station (area_in ground) }
{
    let _ = load(4, net(ground), &NONE_HELD, area);
    match ground {
        AfterM8 => admit_m8(area, work),
        OnA | OnNone | OnB => {}
    }
}

// The numbers of a call: 0 for a quote, 1 for an admission; the circuit number, or 0; and the request in document 01's order.
fn numbers(asked: Asked) -> [u32; 8]
    ensures { result ≡ asked_numbers asked }
{
    let (kind, circuit, r) = match asked {
        Quote(r) => (0, 0, r),
        Admission(c, r) => (1, c, r),
    };
    [
        kind,
        circuit,
        r.source,
        r.target,
        r.terms.units,
        r.terms.delay_bound,
        r.terms.cost_bound,
        r.terms.coefficient,
    ]
}

// What the line of a case is about: M and the case's number, and the numbers of its area and of its call.
#[tactic(auto, unfolding(crate::specs::Lines::name_text))]
fn put_name(text: &mut Text, row: &Row)
    requires { array_vec_len text.old + 112 ≤ 8000 }
    ensures text { text.new.items ≡ text.old.items ++ name_text row.now }
    ensures most { array_vec_len text.new ≤ array_vec_len text.old + 112 }
{
    text::put(text, b"M");
    text::put_number(text, row.number);
    text::put_field(text, row.stands as u32);
    text::put_fields(text, &numbers(row.asked));
    text::put(text, b" =");
}

// The line of a case.
fn put_case(area: &mut [u32; AREA_WORDS], work: &mut [u32; WORK_WORDS], text: &mut Text, row: &Row)
    requires { array_vec_len text.old + 500 ≤ 8000 }
    ensures text { text.new.items ≡ text.old.items ++ row_line row.now }
    ensures most { array_vec_len text.new ≤ array_vec_len text.old + 500 }
{
    let mut path = UNWRITTEN;
    prepare(area, work, row.stands);
    put_name(text, row);
    let answer = call(area, work, &mut path, row.asked);
    answer_lines::put_routed(text, answer, &path);
}

// The lines of these cases.
fn put_rows(
    area: &mut [u32; AREA_WORDS],
    work: &mut [u32; WORK_WORDS],
    text: &mut Text,
    rows: &[Row],
)
    requires { array_vec_len text.old + 500 * length rows.now ≤ 8000 }
    ensures { text.new.items ≡ text.old.items ++ row_lines rows.now }
{
    for row in rows {
        put_case(area, work, text, row);
    }
}

// The lines of all cases.
pub(crate) fn cases_text(area: &mut [u32; AREA_WORDS], work: &mut [u32; WORK_WORDS]) -> Text
    ensures { result.items ≡ case_lines }
{
    let mut text = Text::new();
    put_rows(area, work, &mut text, table());
    text
}
