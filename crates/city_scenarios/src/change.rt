//! A change, written as its ids.
use crate::written::Written;
use city_model::change::Change;

/// Adds a word and the ids of a change, with a `+` before each set one and a `-` before each removed one.
pub fn add_change(word: &str, change: &Change, said: &mut Written) {
    said.add(word);
    for (id, object) in change.iter() {
        said.add(if object.is_some() { " +" } else { " -" });
        said.add(id.as_str());
    }
}
