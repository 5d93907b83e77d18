// The library that a host program links: the calls of `unglassot` under C names, with the same parameters and clauses; each only calls its namesake there. The
// header for C is host/include/unglassot.h. A slice is passed as a pointer and then a length.
#![tactic(auto)]

pub mod calls;
pub mod fields;
pub mod hash;
pub mod messages;
pub mod small;
pub mod version;
