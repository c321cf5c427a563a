//! Random words: those of a published generator, which a seed and a stream name.
//!
//! A member takes the words of its timers from one stream, and its policy from another. So how
//! often one takes a word changes nothing for the other.
//!
//! In reading order: `words` has the words that were not taken yet. `specs/Words.antt` says which
//! they are, and `laws` what follows.
#![tactic(auto)]

pub mod laws;
mod words;

pub use words::RandomWords;
