// A text for every list of lines within the limits, and the law that it is read as these lines. There is no code here.
#![tactic(auto)]
