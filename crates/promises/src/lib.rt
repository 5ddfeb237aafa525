// What holds of every run of the rules. Theorems only: what is said in specs/, and how it is shown in specs/ and proofs/.
#![tactic(auto)]
