//! The digest of a page: 32 bytes with which members compare what they hold, and need not send it.
//!
//! "Nothing is missing" says that numbers are the same. Somebody who lies, a second member under one
//! number, or a record that lost its end make boards that have the same numbers and other
//! drawings. Their digests differ, whoever told what, unless two texts with one SHA-256 were
//! found.
#![tactic(auto)]

mod hashing;
pub mod laws;

pub use hashing::page_digest;
