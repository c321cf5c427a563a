//! One growing history of drawops that threads share without a lock.
//!
//! A history has cells, and as many rows of words. To add a drawop, a pass stores its record into a
//! free row of its own, word by word, and then exchanges the next cell, if it is still free, for
//! the number of that row. This one winning exchange is the only event that adds a drawop to the
//! history; a pass that loses it reads the drawop that won, and tries the cell after it with the
//! row it has already stored. So the filled cells are a beginning of all cells, no name stands
//! twice, and what one pass has seen is a beginning of what any other may see. The table of words
//! and its atomic steps are those of `atomic_table`, each of them sequentially consistent; a rule
//! over all words and all passes is kept by every step, and each contract here follows from it.
//!
//! No call waits for another thread, and nothing is promised of which claim wins. A row is never
//! used again, a drawop never leaves, and nothing is kept on disk. Callers see drawops by place;
//! the words, the contents of cells and the numbers of rows stay inside.
//!
//! In reading order: `history`, `parts` and `pass` have the public calls, and `claim` the answers
//! to one; `cursor`, `seen`, `ranges`, `spares`, `walk` and `claiming` what a pass does in them;
//! `cells`, `steps`, `rule` and `knowledge` the table. `laws` says how many cells there may be.
#![tactic(auto)]

mod cells;
mod claim;
mod claiming;
mod cursor;
mod history;
mod knowledge;
pub mod laws;
mod parts;
mod pass;
mod ranges;
mod rule;
mod seen;
mod spares;
mod steps;
mod walk;

pub use claim::{Claim, ClaimFault};
pub use history::{History, MAX_CELLS, OpenFault};
pub use parts::{JoinFault, SplitFault};
pub use pass::Pass;
