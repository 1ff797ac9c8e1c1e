// The theorem that heights see of the road's bank one number, its tangent; there is no code here.
#![tactic(auto)]
