//! Reads the frame of a document from the members of its top.
ghost use Rattle.std.specs.Prelude.{◌≡◌, codes};
ghost use Rattle.serde_json.specs.View.{view, members_view};
ghost use Rattle.city_members.specs.Kept.{kept_at_top, kept_at_transform};
ghost use Rattle.city_members.specs.Members.{without};
ghost use Rattle.city_tokens.specs.tree.Members.{kept_if};
ghost use Rattle.city_tokens.specs.document.Frames.{triple_at, more_of, without_transform_members};
ghost use Rattle.city_tokens.specs.document.FramesOfRest.{frame_with, frame_of_rest};

use crate::triples::triple_of;
use city_members::kept::extra::Extra;
use city_members::kept::site::{AtTop, AtTransform};
use city_members::members::{into_object, take};
use city_model::frame::Frame;
use serde_json::{Map, Value};

/// The three whole numbers of the member of this name.
pub fn triple_at(object: &Value, name: &str) -> Option<[i64; 3]>
    ensures { result ≡ triple_at name.now (view object.now) }
{
    triple_of(object.get(name)?)
}

/// The kept members of a transform.
fn kept_at_transform(mut transform: Map<String, Value>) -> Option<Extra<AtTransform>>
    ensures { result ≡ kept_if kept_at_transform
        (without_transform_members (members_view transform.entries)) }
{
    drop(take(&mut transform, "scale"));
    drop(take(&mut transform, "translate"));
    Extra::new(transform).ok()
}

fn more_of(transform: Value) -> Option<Extra<AtTransform>>
    ensures { result ≡ more_of (view transform) }
{
    kept_at_transform(into_object(transform)?)
}

/// The kept members of the top, given without `CityObjects` and `transform`.
fn extra_of(mut top: Map<String, Value>) -> Option<Extra<AtTop>>
    ensures { result ≡ kept_if kept_at_top (without (codes "vertices") (without (codes "version")
        (without (codes "type") (members_view top.entries)))) }
{
    drop(take(&mut top, "type"));
    drop(take(&mut top, "version"));
    drop(take(&mut top, "vertices"));
    Extra::new(top).ok()
}

/// The frame of a transform and of the kept members of the top. Consumes both.
fn frame_with(extra: Extra<AtTop>, transform: Value) -> Option<Frame>
    ensures { result ≡ frame_with extra (view transform) }
{
    let scale = triple_at(&transform, "scale")?;
    let translate = triple_at(&transform, "translate")?;
    let more = more_of(transform)?;
    Some(Frame {
        scale,
        translate,
        more,
        extra,
    })
}

/// The frame of the members of the top without `CityObjects`. Consumes them.
pub fn frame_of_rest(mut rest: Map<String, Value>) -> Option<Frame>
    ensures { result ≡ frame_of_rest (members_view rest.entries) }
{
    let transform = take(&mut rest, "transform");
    let extra = extra_of(rest)?;
    frame_with(extra, transform?)
}
