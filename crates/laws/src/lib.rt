// What follows from the rule's definitions. There is no code here: what the theorems say stands in specs/, the
// theorems in proofs/.
#![tactic(auto)]
