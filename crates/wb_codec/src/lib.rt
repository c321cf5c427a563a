//! Datagrams of a shared whiteboard as bytes, and its drawops as rows of words.
//!
//! Members tell one another drawops, what they hold of a page, and what they want. Each datagram
//! has one spelling in bytes, and `read` and `write` are its two directions: what is read is
//! spelled so, and other bytes are refused with the first check that fails: the header, then the
//! sizes, then the fields. Each drawop also has one row of twelve words, with which threads share
//! it word by word.
//!
//! This crate knows the layouts and nothing of what they mean: it keeps no board, numbers no
//! drawing and opens no socket. The layouts are this project's own.
#![tactic(auto)]

mod body;
mod checking;
mod datagram;
mod drawing;
mod entries;
mod fault;
mod fields;
mod header;
pub mod laws;
mod parts;
mod reading;
mod row;
mod version;
mod writing;

pub use datagram::Datagram;
pub use fault::ReadFault;
pub use reading::read;
pub use row::{ROW_WORDS, drawop_in, from_row, to_row};
pub use writing::write;
