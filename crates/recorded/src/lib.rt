// The recorded answers of the Rust, against the definitions. Theorems only: see specs/.
#![tactic(auto)]
