// Logs worked by hand, from their bytes to the printed lines. There is no code here: the cases stand in specs/, and
// proofs/Computed.antt computes them all.
#![tactic(auto)]
