// The C interface, which the pump's firmware links: the papers' calls under plain names. include/line.h declares
// them for C and C++.
//
// Each gives 0 for a grant, or else the papers' refusal number, and then the answer array is unchanged. None requires
// anything of its numbers and words; what a C caller owes of pointers and lengths stands in line.h.
//
// `told` tells C what a call answers, whichever it is; the other modules are the functions themselves.
#![tactic(auto)]

mod booking_calls;
mod class_calls;
mod file_calls;
mod station_calls;
mod told;
