//! One city, edited by transactions that stay open as long as whoever runs them likes.
//!
//! - `session`: begins, acts, commits and aborts; what has ended is a serial history
//! - `growing`, `transaction`: the open ones, by their stamps; one of them
//! - `acted`: what came of a command; `writes`: whether a transaction has written
//! - `ghosts`: what was told and what has ended, for contracts only
#![tactic(auto)]

mod acted;
mod ghosts;
mod growing;
mod session;
mod transaction;
mod writes;

pub use acted::Acted;
pub use ghosts::opening_city::OpeningCity;
pub use ghosts::past::Past;
pub use ghosts::told::Told;
pub use session::Session;
pub use transaction::Transaction;
pub use writes::Writes;

/// The most commands of a transaction, its commit or abort among them: as many as a script has.
pub const MAX_COMMANDS: usize = 1_024;
