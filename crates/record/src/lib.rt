// Records: advertisements and the entries of a cache, read and written as bytes (document 01, "Records"), and the table of every record's numbers.
// read_ad and write_ad answer on every input, with what was asked for or with a refusal, which leaves a lent buffer as it was. The signature and the stamp are carried here and not judged: REGISTER of the small-registrar profile judges a stamp.
#![tactic(auto)]

pub mod ad;
pub mod entry;
pub mod layout;
pub mod reasons;

pub use reasons::Refusal;
