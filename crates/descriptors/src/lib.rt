// The files that are open when a program begins, as the C library numbers them.
#![tactic(auto)]

pub const STDIN_FILENO: i32 = 0;

pub const STDOUT_FILENO: i32 = 1;
