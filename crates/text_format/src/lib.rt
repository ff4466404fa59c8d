// Numbers and fields as bytes: what they are (specs/), with their laws (proofs/). There is no code here; `text`
// appends them to a text.
#![tactic(auto)]
