//! The types of city objects.

ghost use Rattle.std.specs.Prelude.{◌≡◌};
ghost use Rattle.city_model.specs.Types.{name_of, first_named, type_named, family_of, level_of};

/// The type of a city object.
#[derive(Clone, Copy, Debug, PartialEq, Eq)]
pub enum ObjectType {
    Building,
    Bridge,
    Tunnel,
    CityFurniture,
    LandUse,
    OtherConstruction,
    PlantCover,
    SolitaryVegetationObject,
    TINRelief,
    Road,
    Railway,
    Waterway,
    TransportSquare,
    WaterBody,
    GenericCityObject,
    BuildingPart,
    BuildingInstallation,
    BuildingConstructiveElement,
    BuildingFurniture,
    BuildingStorey,
    BuildingRoom,
    BuildingUnit,
    BridgePart,
    BridgeInstallation,
    BridgeConstructiveElement,
    BridgeRoom,
    BridgeFurniture,
    TunnelPart,
    TunnelInstallation,
    TunnelConstructiveElement,
    TunnelHollowSpace,
    TunnelFurniture,
}

/// All types.
pub const ALL: [ObjectType; 32] = [
    ObjectType::Building,
    ObjectType::Bridge,
    ObjectType::Tunnel,
    ObjectType::CityFurniture,
    ObjectType::LandUse,
    ObjectType::OtherConstruction,
    ObjectType::PlantCover,
    ObjectType::SolitaryVegetationObject,
    ObjectType::TINRelief,
    ObjectType::Road,
    ObjectType::Railway,
    ObjectType::Waterway,
    ObjectType::TransportSquare,
    ObjectType::WaterBody,
    ObjectType::GenericCityObject,
    ObjectType::BuildingPart,
    ObjectType::BuildingInstallation,
    ObjectType::BuildingConstructiveElement,
    ObjectType::BuildingFurniture,
    ObjectType::BuildingStorey,
    ObjectType::BuildingRoom,
    ObjectType::BuildingUnit,
    ObjectType::BridgePart,
    ObjectType::BridgeInstallation,
    ObjectType::BridgeConstructiveElement,
    ObjectType::BridgeRoom,
    ObjectType::BridgeFurniture,
    ObjectType::TunnelPart,
    ObjectType::TunnelInstallation,
    ObjectType::TunnelConstructiveElement,
    ObjectType::TunnelHollowSpace,
    ObjectType::TunnelFurniture,
];

/// The name of a type.
pub fn name(kind: ObjectType) -> &'static str
    ensures { result.now ≡ name_of kind }
{
    match kind {
        ObjectType::Building => "Building",
        ObjectType::Bridge => "Bridge",
        ObjectType::Tunnel => "Tunnel",
        ObjectType::CityFurniture => "CityFurniture",
        ObjectType::LandUse => "LandUse",
        ObjectType::OtherConstruction => "OtherConstruction",
        ObjectType::PlantCover => "PlantCover",
        ObjectType::SolitaryVegetationObject => "SolitaryVegetationObject",
        ObjectType::TINRelief => "TINRelief",
        ObjectType::Road => "Road",
        ObjectType::Railway => "Railway",
        ObjectType::Waterway => "Waterway",
        ObjectType::TransportSquare => "TransportSquare",
        ObjectType::WaterBody => "WaterBody",
        ObjectType::GenericCityObject => "GenericCityObject",
        ObjectType::BuildingPart => "BuildingPart",
        ObjectType::BuildingInstallation => "BuildingInstallation",
        ObjectType::BuildingConstructiveElement => "BuildingConstructiveElement",
        ObjectType::BuildingFurniture => "BuildingFurniture",
        ObjectType::BuildingStorey => "BuildingStorey",
        ObjectType::BuildingRoom => "BuildingRoom",
        ObjectType::BuildingUnit => "BuildingUnit",
        ObjectType::BridgePart => "BridgePart",
        ObjectType::BridgeInstallation => "BridgeInstallation",
        ObjectType::BridgeConstructiveElement => "BridgeConstructiveElement",
        ObjectType::BridgeRoom => "BridgeRoom",
        ObjectType::BridgeFurniture => "BridgeFurniture",
        ObjectType::TunnelPart => "TunnelPart",
        ObjectType::TunnelInstallation => "TunnelInstallation",
        ObjectType::TunnelConstructiveElement => "TunnelConstructiveElement",
        ObjectType::TunnelHollowSpace => "TunnelHollowSpace",
        ObjectType::TunnelFurniture => "TunnelFurniture",
    }
}

/// The type of a name.
#[tactic(auto, unfolding(crate::specs::Types::type_named))]
pub fn type_named(text: &str) -> Option<ObjectType>
    ensures { result ≡ type_named text.now }
{
    first_named(text, &ALL)
}

fn first_named(text: &str, kinds: &[ObjectType]) -> Option<ObjectType>
    ensures { result ≡ first_named text.now kinds.now }
{
    for kind in kinds {
        if text == name(*kind) {
            return Some(*kind);
        }
    }
    None
}

/// The first-level type of a type's family.
pub fn family(kind: ObjectType) -> ObjectType
    ensures { result ≡ family_of kind }
{
    match kind {
        ObjectType::BuildingPart
        | ObjectType::BuildingInstallation
        | ObjectType::BuildingConstructiveElement
        | ObjectType::BuildingFurniture
        | ObjectType::BuildingStorey
        | ObjectType::BuildingRoom
        | ObjectType::BuildingUnit => ObjectType::Building,
        ObjectType::BridgePart
        | ObjectType::BridgeInstallation
        | ObjectType::BridgeConstructiveElement
        | ObjectType::BridgeRoom
        | ObjectType::BridgeFurniture => ObjectType::Bridge,
        ObjectType::TunnelPart
        | ObjectType::TunnelInstallation
        | ObjectType::TunnelConstructiveElement
        | ObjectType::TunnelHollowSpace
        | ObjectType::TunnelFurniture => ObjectType::Tunnel,
        other => other,
    }
}

/// The level of a type, 1 or 2.
pub fn level(kind: ObjectType) -> u8
    ensures { result ≡ level_of kind }
{
    if family(kind) == kind { 1 } else { 2 }
}

ghost use Rattle.std.specs.Str.{bytes_eq};

/// Whether two types are the same.
pub fn is_same(kind: ObjectType, other: ObjectType) -> bool
    ensures { result ≡ bytes_eq (name_of kind) (name_of other) }
{
    kind == other
}
