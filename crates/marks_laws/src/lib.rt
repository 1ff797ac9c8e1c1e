// The theorem that of all calls on a road `dots` alone depends on marks; there is no code here.
#![tactic(auto)]
