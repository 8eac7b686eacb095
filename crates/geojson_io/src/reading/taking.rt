ghost use Rattle.std.specs.Prelude.{◌≤◌, IfOk, IfErr};
ghost use Rattle.grid_base.specs.Grid.{most_places};
ghost use Rattle.json_read.specs.Faults.{FaultFits};
ghost use Rattle.geojson_io.specs.Taking.{AreLayersOf, IsParsed, IsValueOf, IsWholeOnlyOf, ParsedIsSound};

mod straight;

use crate::fault::ShapeFault;
use crate::layer::{GeoLayers, Room};
use crate::reading::features::{Feature, numbered};
use crate::reading::layering::layers_of;
use crate::reading::types::{Member, type_of};
use json_read::{ItemTaker, Json, JsonFault, ReadJson, Reader};
use std::alloc::{AllocError, Global};

/// A JSON text as it was read.
#[derive(Drop)]
pub enum Parsed {
    /// A FeatureCollection: its layers, or its first fault.
    Features(Result<GeoLayers, ShapeFault>),
    /// The value of any text.
    Value(Json),
}

// Features that are read one by one, up to the first fault.
#[derive(Drop)]
struct FeatureTaker {
    alloc: Global,
    places: u8,
    // the features that there is room for, and the positions for which there still is
    limit: u32,
    left: u32,
    number: u32,
    // the features up to the last that was read straight from its text
    straight: u32,
    features: Vec<Feature>,
    fault: Option<ShapeFault>,
}

impl ItemTaker for FeatureTaker {
    ghost use Rattle.geojson_io.specs.Taking.{HasTaken};

    ghost took = { HasTaken };

    fn take_text(&mut self, reader: &mut Reader<'_>, depth: u32) -> Result<bool, AllocError> {
        if self.fault.is_some() || self.number >= self.limit || !self.is_tried() {
            return Ok(false);
        }
        self.take_straight(reader, depth)
    }

    fn take_item(&mut self, item: Json) -> Result<(), AllocError> {
        if self.fault.is_some() {
            return Ok(());
        }
        let kind = Member::Feature;
        match numbered(
            self.alloc,
            kind,
            self.number,
            &item,
            self.places,
            self.limit,
            &mut self.left,
        ) {
            Ok(feature) => {
                self.features.push(feature)?;
                self.number += 1;
            }
            Err(ShapeFault::Memory) => return Err(AllocError),
            Err(fault) => self.fault = Some(fault),
        }
        Ok(())
    }
}

/// Reads a JSON text, and each feature of a FeatureCollection as soon as its text is read, so that no more of the text
/// is kept than a feature at a time.
///
/// Shape and units: as `read_geojson`, whose answer the layers of a FeatureCollection, or its fault, are.
/// Errors: as `Json::parse`, also where a feature has a fault too.
/// Source: RFC 8259; RFC 7946, section 3.3.
pub fn parse_features(
    alloc: Global,
    bytes: &[u8],
    places: u8,
    name: &str,
    room: Room,
) -> Result<Parsed, JsonFault>
    requires { places ≤ most_places }
    ensures ok { IfOk result (IsParsed places name.now room.positions room.features bytes.now) }
    ensures fault { IfErr result (FaultFits 64 bytes.now) }
    ensures sound { IfOk result ParsedIsSound }
    ensures whole { IfOk result (IsWholeOnlyOf bytes.now) }
{
    let mut taker = FeatureTaker {
        alloc,
        places,
        limit: room.features,
        left: room.positions,
        number: 0,
        straight: 0,
        features: Vec::new(alloc),
        fault: None,
    };
    let Some(object) = json_read::parse_taking(alloc, bytes, "features", &mut taker)? else {
        return parse_value(alloc, bytes);
    };
    if !object.is_taken {
        return Ok(Parsed::Value(Json::Object(object.fields)));
    }
    if type_of(&object.fields) == "FeatureCollection" {
        return Ok(Parsed::Features(taker.layers(name)));
    }
    parse_value(alloc, bytes)
}

fn parse_value(alloc: Global, bytes: &[u8]) -> Result<Parsed, JsonFault>
    ensures ok { IfOk result (IsValueOf bytes.now) }
    ensures fault { IfErr result (FaultFits 64 bytes.now) }
{
    Ok(Parsed::Value(Json::parse(alloc, bytes)?))
}

impl FeatureTaker {
    // The layers of the features that were read, or the first fault.
    fn layers(self, name: &str) -> Result<GeoLayers, ShapeFault>
        ensures exact { AreLayersOf self name.now result }
    {
        match self.fault {
            Some(fault) => Err(fault),
            None => Ok(layers_of(self.alloc, name, self.features)?),
        }
    }
}
