// No code here. What admission says of lanes: borders in order and in size, heights in size.
#![tactic(auto)]
