// The library for a host: the calls with numbers and byte slices alone; which number stands for what is `codes`. A host program links the static library
// `unglassot_c`, which exports each of them under its name; the header for C is host/include/unglassot.h. A negative answer −n is refusal n, and then the cache and every lent buffer are as they were; 0 is done or confirmed; a
// positive number is a wait in milliseconds, a count, a length or the version. The program `conformance` calls them too.
#![tactic(auto)]

pub mod calls;
pub mod fields;
pub mod hash;
pub mod messages;
pub mod small;
pub mod version;
