// Instances: small laws which show that no definition of the repository is empty or holds of everything by accident.
// For each relation there is something that it holds of and something that it does not, each refusal has a call that
// it answers, and each premise can be met. There is no code here.
#![tactic(auto)]
