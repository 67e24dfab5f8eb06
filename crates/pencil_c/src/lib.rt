// The plain engine as a C program has it: change request M-105. `host/include/linkshoar.h` declares the calls.
// They stand in an object of their own, as the marked run does (`marks_c`): whoever links neither call has no second engine.
#![tactic(auto)]

pub mod marked;
pub mod run;
