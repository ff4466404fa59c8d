// Quote, admission, release and all jobs in one call: the calls of the papers that search or change the bookings. This is the upper crate: it
// uses the route search by its stated result alone (`find_path` makes the one call) and reads none of its tables.
//
// The calls take anything: any words, any lengths, any numbers. Each checks in the papers' order and refuses by the
// first number that applies; a refusal changes nothing but work memory, which is open after any call that takes it.
#![tactic(auto)]

pub mod calls;
mod checks;
mod find_path;
pub mod jobs;
pub mod quote;
mod request;
