// The simulator for other languages, on numbers and slices: `r8_c` exports these functions to C, as include/r8.h declares them. No function
// has a `requires`: each checks what it is given, and returns a code other than 0 where that does not fit.
#![tactic(auto)]

mod codes; // what the functions return
pub mod form; // r8_form
pub mod written; // r8_listing
pub mod call; // r8_run, r8_step
pub mod list; // r8_replay
pub mod rows; // r8_trace
