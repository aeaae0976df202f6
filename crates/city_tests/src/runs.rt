//! Runs with refused growths.
ghost use Rattle.std.specs.Prelude.{IfSome};
ghost use Rattle.city_model.specs.CityMap.{object_at};
ghost use Rattle.city_model.specs.Relations.{IsLawful};

use city_desk::{Desk, ListShelf};
use city_doc::read_city;
use city_members::sequence::Sequence;
use city_model::city::City;
use city_model::script::Script;
use city_scripts::read_scripts;
use std::alloc::Global;

/// A document and scripts.
#[derive(Clone, Copy)]
pub struct Run {
    pub document: &'static str,
    pub scripts: &'static str,
}

/// The city of a document.
pub fn city_of(alloc: Global, document: &str) -> Option<City>
    ensures { IfSome result (λ city. IsLawful (object_at city.1)) }
{
    match read_city(alloc, document.as_bytes()) {
        Ok(city) => Some(city),
        Err(_) => None,
    }
}

/// The scripts of a text.
pub fn scripts_of(alloc: Global, text: &str) -> Option<Sequence<Script>> {
    match read_scripts(alloc, text.as_bytes()) {
        Ok(scripts) => Some(scripts),
        Err(_) => None,
    }
}

/// A desk over the city of a run's document, with the run's scripts.
pub fn opened(alloc: Global, run: &Run) -> Option<Desk<ListShelf>> {
    let city = city_of(alloc, run.document)?;
    let scripts = scripts_of(alloc, run.scripts)?;
    Desk::open(alloc, city, scripts, ListShelf::new(alloc)).ok()
}

pub const CHILD_OF_TWO: Run = Run {
    document: model!(
        r#"{"b1":{"children":["p"],"type":"Building"},"b2":{"children":["p"],"type":"Building"},"p":{"parents":["b1","b2"],"type":"BuildingPart"}}"#,
        "[]"
    ),
    scripts: concat!(
        r#"[{"name":"a","commands":[{"delete":"p"},"commit"]},"#,
        r#"{"name":"b","commands":[{"put":"q","object":{"type":"BuildingPart"}},"#,
        r#"{"attach":"q","parent":"b2"},"commit"]}]"#
    ),
};

pub const TWO_READERS: Run = Run {
    document: model!(r#"{"x":{"type":"LandUse"},"y":{"type":"LandUse"}}"#, "[]"),
    scripts: concat!(
        r#"[{"name":"a","commands":[{"read":"y"},"#,
        r#"{"put":"x","object":{"type":"LandUse","attributes":{"by":"a"}}},"commit"]},"#,
        r#"{"name":"b","commands":[{"read":"x"},"#,
        r#"{"put":"y","object":{"type":"LandUse","attributes":{"by":"b"}}},"commit"]}]"#
    ),
};

pub const ORPHAN: Run = Run {
    document: model!(r#"{"b":{"type":"Building"}}"#, "[]"),
    scripts: concat!(
        r#"[{"name":"a","commands":[{"put":"p","object":{"type":"BuildingPart"}},"commit"]},"#,
        r#"{"name":"b","commands":[{"put":"p","object":{"type":"BuildingPart"}},"#,
        r#"{"attach":"p","parent":"b"},"commit"]}]"#
    ),
};

/// Two set attributes of one building.
pub const PLANNERS: Run = Run {
    document: model!(
        r#"{"b":{"attributes":{"name":"hall","storeys":2},"type":"Building"}}"#,
        "[]"
    ),
    scripts: concat!(
        r#"[{"name":"a","commands":[{"expect":"b","attributes":{"storeys":2}},"#,
        r#"{"set":"b","attributes":{"roof":"flat"}},"commit"]},"#,
        r#"{"name":"b","commands":[{"set":"b","attributes":{"storeys":3}},{"unset":"b","attributes":["name"]},"#,
        r#"{"reshape":"b","geometry":[]},{"add":"g","object":{"type":"Road"}},"commit"]}]"#
    ),
};

pub const UNDELETED: Run = Run {
    document: model!(r#"{"x":{"type":"LandUse"}}"#, "[]"),
    scripts: concat!(
        r#"[{"name":"s","commands":[{"mark":"m"},{"delete":"x"},"#,
        r#"{"put":"x","object":{"type":"Road"}},{"back":"m"},{"read":"x"},"abort"]}]"#
    ),
};

pub const CUBE: Run = Run {
    document: model!(
        r#"{"c":{"type":"Building","geometry":[{"type":"Solid","lod":"1","boundaries":[[[[0,3,2,1]],[[4,5,6,7]],[[0,1,5,4]],[[1,2,6,5]],[[2,3,7,6]],[[3,0,4,7]]]]}]}}"#,
        "[[0,0,0],[1,0,0],[1,1,0],[0,1,0],[0,0,1],[1,0,1],[1,1,1],[0,1,1]]"
    ),
    scripts: r#"[{"name":"a","commands":[{"read":"c"},"commit"]}]"#,
};

/// Roads, and land with points in each piece of the text.
pub const ROADS: &str = model!(
    r#"{"a":{"type":"Road"},"b":{"type":"Road"},"c":{"geometry":[{"boundaries":[[[0,1,2]]],"lod":"1","type":"MultiSurface"}],"type":"LandUse"},"d":{"type":"Road"},"e":{"attributes":{"n":[1]},"type":"Road"},"f":{"geometry":[{"boundaries":[[[2,3,0]]],"lod":"1","type":"MultiSurface"}],"type":"LandUse"}}"#,
    "[[0,0,0],[1,0,0],[0,1,0],[0,0,1]]"
);
