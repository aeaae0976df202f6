//! In how many pieces a text is read, and in how many a city or a report is written.
ghost use Rattle.std.specs.Prelude.{◌≡◌, ◌<◌};

use city_texts::Pieces;

/// How many bytes a piece of a text has at least: a smaller one isn't worth a thread.
pub const LEAST_PIECE: usize = 262_144;

/// A piece for each of so many threads, as far as a text is large enough.
pub fn pieces_for(threads: usize) -> Pieces
    ensures { result.count ≡ threads }
{
    Pieces {
        count: threads,
        least: LEAST_PIECE,
    }
}

/// How many items a piece has: one piece for each thread, as far as there are items enough. An item makes so many
/// bytes of text.
pub fn piece_len(items: usize, item_bytes: usize, pieces: Pieces) -> usize
    requires { 0 < item_bytes }
    ensures { 0 < result }
{
    let least = (pieces.least / item_bytes).max(1);
    items.div_ceil(pieces.count.max(1)).max(least)
}
