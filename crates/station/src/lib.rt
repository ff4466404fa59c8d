// The station area in lent words: the calls of document 01 that need no search (`load`, and in `reads` the listing and free
// units), and what quote, admission and release do with an area: its check with the free units (`free_in`), by which every call
// on a loaded area begins, `Station`, a well-formed area, which knows the place of a circuit number, and the stores (`store`).
//
// The calls take anything. What the functions below them require, their callers have checked.
#![tactic(auto)]

mod circuits;
mod columns;
mod formed;
pub mod layout;
pub mod load;
mod places;
pub mod reads;
pub mod store;
mod table;
mod units;
pub mod usable;

pub use crate::formed::{Station, free_in};
pub use crate::units::take_units;
