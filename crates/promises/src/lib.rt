// What the register promises, as statements that an inspector signs (`specs/`, a file to a demand), and their proofs. There is no
// code here: the operations are in `register`, and their contracts say that they answer as the definitions do.
#![tactic(auto)]
