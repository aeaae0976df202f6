//! Tests with threads, devices or refused allocations, by public calls; city_scenarios plays all other cases.
#![tactic(auto)]

/// The text of a document of whole units, of these objects and vertices.
#[cfg(test)]
macro_rules! model {
    ($objects:literal, $vertices:literal) => {
        concat!(
            "{\"CityObjects\":",
            $objects,
            r#","transform":{"scale":[1,1,1],"translate":[0,0,0]},"type":"CityJSON","version":"2.0","vertices":"#,
            $vertices,
            "}"
        )
    };
}

#[cfg(test)]
mod board;
#[cfg(test)]
mod copies;
#[cfg(test)]
mod core_calls;
#[cfg(test)]
mod files;
#[cfg(test)]
mod looks;
#[cfg(test)]
mod meeting;
#[cfg(test)]
mod refused;
#[cfg(test)]
mod refusing;
#[cfg(test)]
mod replaced;
#[cfg(test)]
mod replay;
#[cfg(test)]
mod runs;
#[cfg(test)]
mod script_texts;
#[cfg(test)]
mod seeds;
#[cfg(test)]
mod served;
#[cfg(test)]
mod sleepers;
#[cfg(test)]
mod viewers;
#[cfg(test)]
mod workers;
