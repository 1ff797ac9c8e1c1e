// No code here. What rows 3 to 5 say of a road: of its values along and across, of its samples and of its poses.
#![tactic(auto)]
