// What the class program prints, as bytes: each class's line, and all of it for a file (specs/), with the laws that its
// functions' proofs cite and net A's six lines (proofs/). There is no code here.
#![tactic(auto)]
