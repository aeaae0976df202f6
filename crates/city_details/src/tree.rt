//! The tree of a text.
use city_model::OutOfMemory;
use serde_json::Value;
use std::alloc::Global;

/// Returns the tree of a text, or `null` if the text isn't JSON. Fails only if memory runs out.
pub fn tree_of(alloc: Global, text: &[u8]) -> Result<Value, OutOfMemory> {
    match Value::from_slice(alloc, text) {
        Ok(tree) => Ok(tree),
        Err(error) => {
            if error.is_memory() {
                return Err(OutOfMemory);
            }
            Ok(Value::Null)
        }
    }
}
