//! The ages of the scripts under way.
use city_model::OutOfMemory;
use std::alloc::Global;

/// The scripts begun and not ended, the first to begin in front.
///
/// A script that died and begins again keeps its place, as it keeps its stamp.
#[derive(Drop)]
pub struct BeginOrder {
    scripts: Vec<usize>,
}

impl BeginOrder {
    /// An empty order, with room for so many scripts.
    pub fn new(alloc: Global, room: usize) -> Result<BeginOrder, OutOfMemory> {
        let scripts = Vec::with_capacity(alloc, room)?;
        Ok(BeginOrder { scripts })
    }

    /// Notes a script as begun, or begun again.
    pub fn begin(&mut self, script: usize) {
        if !self.scripts.as_slice().contains(&script) {
            // Without room it has no place, and is the oldest when no other is under way.
            drop(self.scripts.push(script));
        }
    }

    /// Notes a script as ended.
    pub fn end(&mut self, script: usize) {
        self.scripts.retain(|other| *other != script);
    }

    /// The first to begin of the scripts under way.
    pub fn oldest(&self) -> Option<usize> {
        self.scripts.first().copied()
    }

    /// Whether no other script under way began before this one.
    pub fn is_oldest(&self, script: usize) -> bool {
        self.oldest().is_none_or(|oldest| oldest == script)
    }
}
