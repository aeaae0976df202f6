//! The board: whole versions of a city, for viewers on other threads.
//!
//! - `board`: makes a board
//! - `poster`, `writer`, `note`: takes changes, writes and publishes versions, and tells of them
//! - `viewer`, `look`: looks at versions
//! - `version`, `apply`, `places`: a version, a change written into it, and places for its new ids
//! - `history`: the changes of a version
//! - `ghosts`: the rules of boards and histories, for proofs only
#![tactic(auto)]

mod apply;
pub mod board;
mod ghosts;
mod history;
mod look;
mod note;
mod places;
mod poster;
mod version;
mod viewer;
mod writer;

pub use board::MAX_VIEWERS;
pub use look::Look;
pub use note::Note;
pub use poster::Poster;
pub use viewer::Viewer;
