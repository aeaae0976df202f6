//! Workers asleep until their scripts are the oldest.
use city_model::OutOfMemory;
use std::alloc::Global;

/// The script of each sleeping worker.
#[derive(Drop)]
pub struct Sleepers {
    scripts: Vec<Option<usize>>,
}

impl Sleepers {
    /// So many workers, all awake.
    pub fn new(alloc: Global, workers: usize) -> Result<Sleepers, OutOfMemory> {
        let scripts = vec![in alloc; None; workers]?;
        Ok(Sleepers { scripts })
    }

    /// The script of a sleeping worker.
    pub fn script(&self, worker: usize) -> Option<usize> {
        *self.scripts.get(worker)?
    }

    /// Notes the worker as asleep with this script, or as awake.
    pub fn set(&mut self, worker: usize, script: Option<usize>) {
        if let Some(place) = self.scripts.get_mut(worker) {
            *place = script;
        }
    }

    /// The worker sleeping with the script.
    pub fn worker(&self, script: usize) -> Option<usize> {
        self.scripts.iter().position(|other| *other == Some(script))
    }
}
