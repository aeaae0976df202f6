//! How large values are.

/// How many bytes each value takes beside its text.
const PLACE: usize = 32;

/// Values of so many bytes are large: copies share them, since smaller ones are faster to copy.
const LARGE: usize = 256 * PLACE;

/// About how many bytes values take. Only the cost of copies depends on it.
#[derive(Drop)]
pub struct Size {
    bytes: usize,
}

impl Size {
    /// The size of no value.
    pub fn new() -> Self {
        Size { bytes: 0 }
    }

    /// Counts a member of this name, but for the text of its value.
    pub fn count_member(&mut self, name: &str) {
        self.count(PLACE);
        self.count(name.len())
    }

    /// Counts so many items, but for their texts.
    pub fn count_items(&mut self, items: usize) {
        self.count(items.wrapping_mul(PLACE))
    }

    /// Counts the text of a value.
    pub fn count_text(&mut self, text: &str) {
        self.count(text.len())
    }

    /// Whether the values are large.
    pub fn is_large(&self) -> bool {
        self.bytes >= LARGE
    }

    // (no values in memory take so much that the sum wraps)
    fn count(&mut self, bytes: usize) {
        self.bytes = self.bytes.wrapping_add(bytes)
    }
}
