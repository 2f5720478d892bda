// What an expression on a tape means once its names are declared. This is a definition, so there is no code here: specs/Reads.antt.
#![tactic(auto)]
