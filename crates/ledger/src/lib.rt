// The third demand: the ledger's own rules (specs/Entries.antt), a list of calls made of what the contracts cite
// (specs/History.antt), the claim (specs/Demand.antt) and its proof (proofs/Demands.antt). There is no code here.
#![tactic(auto)]
