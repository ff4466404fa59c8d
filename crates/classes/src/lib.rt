// Class tables: what each class of a chain's jobs asks for. One call checks a table and one gives a class's row; `sample` has
// document 01's six classes. The class program and the C interface call them.
#![tactic(auto)]

ghost use Rattle.std.specs.Prelude.{◌≡◌};
ghost use Rattle.area.specs.Refusals.{numbered};
ghost use Rattle.rules.specs.Classes.{check_answer, CheckMeans, class_answer, ClassMeans};

use crate::table::{CLASS_WORDS, ROW_WORDS};
use area::Refusal;
use network::Terms;

pub mod sample;
pub mod table;

// 20 and 21 in this order; else the table is accepted.
#[tactic(auto, unfolding(rules::specs::Classes::check_answer))]
pub fn check(rows: &[u32]) -> Result<(), Refusal>
    ensures answer { numbered result ≡ check_answer rows.now }
    ensures means { CheckMeans rows.now (numbered result) }
{
    if !(1..=CLASS_WORDS).contains(&rows.len()) || rows.len() % ROW_WORDS != 0 {
        return Err(Refusal::ClassWords);
    }
    if !table::rows_fit(rows) {
        return Err(Refusal::ClassRange);
    }
    Ok(())
}

// 20, 21 and 16 in this order; else the row of class `k`.
#[tactic(auto, unfolding(rules::specs::Classes::check_answer, rules::specs::Classes::class_answer))]
pub fn class(rows: &[u32], k: u32) -> Result<Terms, Refusal>
    ensures answer { numbered result ≡ class_answer rows.now k }
    ensures means { ClassMeans rows.now k (numbered result) }
{
    check(rows)?;
    let i = k as usize;
    if rows.len() / ROW_WORDS <= i {
        return Err(Refusal::NoSuchClass);
    }
    Ok(table::row(rows, i))
}
