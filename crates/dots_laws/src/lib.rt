// What holds of the dots on a line that is a track, with stations that rise: the list has each multiple that is kept and no other, in order, and of any two stations the later is at most a nanometre below the earlier; and so of what the call answers, of any admitted road. There is no code here.
#![tactic(auto)]
