//! Laws of commands on attributes with numbers of any form.
ghost use Rattle.city_canonical.specs.Edited.{EditsAlike};

/// Set, unset and expect have the same effect on an object's kept members, read encoded, as on the
/// members as given. `attributes` is no object in the former exactly if it is none in the latter.
pub fn edits_alike()
    ensures { EditsAlike }
{}
