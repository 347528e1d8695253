// The library's exports for C and what links C: each calls the function of its name in `bisquefern`, and says its clauses again. A
// slice is a pointer and a length.
#![tactic(auto)]

mod drawing;
mod number;
mod segment;
mod view_call;
