//! What a page of the whiteboard shows, and its canvas.
//!
//! A page shows its drawings, but for those that are hidden: the latest delete or restore of a
//! drawop decides. Shown drawops stand in the order of display, by time, then source, then number;
//! on a canvas of characters a later one covers an earlier one. `order` answers from a whole list,
//! `Layer` keeps the same answer while drawops come one by one, in any order. The module `laws`
//! says that hosts with the same drawops show the same.
//!
//! This crate does not know datagrams, boards or threads, and it does not decide which drawops a
//! host has. The meaning of deletes and the canvas are our own; pages, drawops, timestamps and
//! deletes that come before their target are those of Floyd, Jacobson, Liu, McCanne and Zhang,
//! 1997.
#![tactic(auto)]

mod canvas;
mod display_list;
mod last_words;
pub mod laws;
mod layer;
mod line_points;
mod merging;
mod strokes;
mod view;

pub use canvas::{Canvas, CanvasFault, Stopped};
pub use layer::Layer;
pub use view::{is_history, order};
