//! Datagrams in words, so that people can write and read them.
//!
//! Each datagram has one readable line, as `request 8 7 7/4 2` or `draw 7 7/1 1 10 line 0 1 4 1 *`.
//! `write_words` gives it, and `read_words` reads it, or says which word is wrong first.
//! `DigitsFault` is for those who read a datagram from the digits of its bytes instead.
#![tactic(auto)]

mod adding;
mod digits_fault;
mod drawing;
mod entries;
mod fault;
mod fault_text;
mod fields;
mod kind;
pub mod laws;
mod number;
mod reading;
mod rest;
mod text;
mod writing;

pub use adding::{Adding, read_adding};
pub use digits_fault::DigitsFault;
pub use fault::{WordFault, WordsFault, WrongWord};
pub use reading::{begins_datagram, read_words};
pub use rest::split_once;
pub use writing::write_words;
