//! What one entry more does: which rows stand (`specs/Standing.antt`), which connections are open after it
//! (`specs/Connections.antt`), what a Take hands out, and that a step of play keeps a history legal. There is nothing here
//! but definitions and lemmas, for the program's proofs and for the laws beside it.
#![tactic(auto)]
