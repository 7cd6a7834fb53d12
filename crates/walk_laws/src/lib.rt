// No code: laws for walks by hand (proofs/), which other crates cite as Rattle.walk_laws.proofs.NAME.
#![tactic(auto)]
