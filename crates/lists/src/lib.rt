// Words and laws for lists of numbers. There is no code here: the definitions stand in specs/, the laws in proofs/.
#![tactic(auto)]
