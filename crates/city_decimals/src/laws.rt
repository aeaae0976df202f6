//! Laws of encoded values in an editor of whole numbers.
ghost use Rattle.city_decimals.specs.Attributes.{FindsAttributes, KeepsSets, KeepsUnsets, KeepsExpects, KeepsPlaces};
ghost use Rattle.city_decimals.specs.Kept.{KeepsValues, KeepsTransforms};

/// Everything the editor keeps comes back as it was, with the names of each object in order; of a
/// repeated name the last one wins.
pub fn what_is_kept()
    ensures values { KeepsValues }
    ensures transforms { KeepsTransforms }
{}

/// Editing an object's encoded attributes has the same effect as editing the attributes themselves:
/// the editor finds them, sets them, takes them out, compares them, and writes them in their place.
pub fn what_is_edited()
    ensures finds { FindsAttributes }
    ensures sets { KeepsSets }
    ensures unsets { KeepsUnsets }
    ensures expects { KeepsExpects }
    ensures places { KeepsPlaces }
{}
