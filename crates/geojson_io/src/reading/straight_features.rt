ghost use Rattle.std.specs.Prelude.{◌≡◌, true, IfOk, IfSome, codes};
ghost use Rattle.json_read.specs.Straight.{HasRead, PutsOne};
ghost use Rattle.geojson_io.specs.Features.{feature};
ghost use Rattle.geojson_io.specs.Geometries.{geometry};
ghost use Rattle.geojson_io.specs.Straight.{AreProperties, ReadsAs, HasGeometry, HasParts};

use crate::reading::features::Feature;
use crate::reading::straight_shapes::straight_shape;
use crate::reading::types::GeoType;
use crate::shape::GeoShape;
use json_read::{Fields, MemberTaker, Reader, Value};
use std::alloc::AllocError;
use text_core::Text;

/// Properties of more names are read as a JSON value, which has an index of the names.
const MAX_FIELDS: u32 = 64;

// These read features straight from a text. Each answers `None` or `false` where the text may be a fault, or is none of
// the common forms; it is read as a JSON value then.

// A geometry that is read member by member: its type, and then its coordinates.
#[derive(Drop)]
struct GeometryTaker {
    places: u8,
    left: u32,
    kind: Option<GeoType>,
    shape: Option<GeoShape>,
}

impl MemberTaker for GeometryTaker {
    ghost use Rattle.geojson_io.specs.Straight.{HasGeometry};

    ghost took = { HasGeometry };

    fn take_member(
        &mut self,
        name: &str,
        reader: &mut Reader<'_>,
        depth: u32,
    ) -> Result<bool, AllocError> {
        if name == "type" {
            return Ok(self.take_type(reader, depth));
        }
        if name == "coordinates" {
            return self.take_coordinates(reader, depth);
        }
        Ok(false)
    }
}

impl GeometryTaker {
    fn take_type(&mut self, reader: &mut Reader<'_>, depth: u32) -> bool
        ensures yes { result ≡ true → (first : GeometryTaker) → HasRead depth (PutsOne (HasGeometry first self.old) (HasGeometry first self.new) (codes "type")) reader.old reader.new }
    {
        if self.kind.is_some() || self.shape.is_some() {
            return false;
        }
        let Some(name) = reader.plain_text() else {
            return false;
        };
        let Some(kind) = GeoType::named(name) else {
            return false;
        };
        self.kind = Some(kind);
        true
    }

    fn take_coordinates(&mut self, reader: &mut Reader<'_>, depth: u32) -> Result<bool, AllocError>
        ensures read { IfOk result (λ is_taken. is_taken ≡ true → (first : GeometryTaker) → HasRead depth (PutsOne (HasGeometry first self.old) (HasGeometry first self.new) (codes "coordinates")) reader.old reader.new) }
    {
        let Some(kind) = self.kind else {
            return Ok(false);
        };
        if self.shape.is_some() {
            return Ok(false);
        }
        match straight_shape(kind, reader, depth, self.places, &mut self.left)? {
            None => Ok(false),
            Some(shape) => {
                self.shape = Some(shape);
                Ok(true)
            }
        }
    }
}

fn straight_geometry(
    reader: &mut Reader<'_>,
    depth: u32,
    places: u8,
    left: &mut u32,
) -> Result<Option<GeoShape>, AllocError>
    ensures read { IfOk result (λ found. IfSome found (λ shape. HasRead depth (ReadsAs (geometry places) left.old shape left.new) reader.old reader.new)) }
{
    if reader.null() {
        return Ok(Some(GeoShape::Nothing));
    }
    let mut taker = GeometryTaker {
        places,
        left: *left,
        kind: None,
        shape: None,
    };
    if !reader.members_by(depth, &mut taker)? {
        return Ok(None);
    }
    *left = taker.left;
    Ok(taker.shape)
}

// Properties that are read one by one.
#[derive(Drop)]
struct PropertyTaker {
    fields: Fields,
}

impl MemberTaker for PropertyTaker {
    ghost use Rattle.geojson_io.specs.Straight.{HasProperties};

    ghost took = { HasProperties };

    fn take_member(
        &mut self,
        name: &str,
        reader: &mut Reader<'_>,
        depth: u32,
    ) -> Result<bool, AllocError> {
        if self.fields.len() >= MAX_FIELDS {
            return Ok(false);
        }
        let Some(json) = reader.any_value(depth)? else {
            return Ok(false);
        };
        let name = Text::of(reader.alloc(), name)?;
        self.fields.put(name, Value::of_owned(json))?;
        Ok(true)
    }
}

// Named values, for `width` of which room is made at first.
fn straight_properties(
    width: u32,
    reader: &mut Reader<'_>,
    depth: u32,
) -> Result<Option<Fields>, AllocError>
    ensures read { IfOk result (λ found. IfSome found (λ fields. HasRead depth (AreProperties fields) reader.old reader.new)) }
{
    if reader.null() {
        return Ok(Some(Fields::new(reader.alloc())));
    }
    let mut taker = PropertyTaker {
        fields: Fields::with_capacity(reader.alloc(), width)?,
    };
    if !reader.members_by(depth, &mut taker)? {
        return Ok(None);
    }
    Ok(Some(taker.fields))
}

// A feature that is read member by member, in any order.
#[derive(Drop)]
struct PartTaker {
    // how many properties are looked for
    width: u32,
    places: u8,
    left: u32,
    is_feature: bool,
    fields: Option<Fields>,
    shape: Option<GeoShape>,
}

impl MemberTaker for PartTaker {
    ghost use Rattle.geojson_io.specs.Straight.{HasParts};

    ghost took = { HasParts };

    fn take_member(
        &mut self,
        name: &str,
        reader: &mut Reader<'_>,
        depth: u32,
    ) -> Result<bool, AllocError> {
        if name == "type" {
            return Ok(self.take_type(reader, depth));
        }
        if name == "geometry" {
            return self.take_geometry(reader, depth);
        }
        if name == "properties" {
            return self.take_properties(reader, depth);
        }
        let other = reader.any_value(depth)?;
        Ok(other.is_some())
    }
}

impl PartTaker {
    fn take_type(&mut self, reader: &mut Reader<'_>, depth: u32) -> bool
        ensures yes { result ≡ true → (first : PartTaker) → HasRead depth (PutsOne (HasParts first self.old) (HasParts first self.new) (codes "type")) reader.old reader.new }
    {
        let Some(name) = reader.plain_text() else {
            return false;
        };
        if name != "Feature" {
            return false;
        }
        self.is_feature = true;
        true
    }

    fn take_geometry(&mut self, reader: &mut Reader<'_>, depth: u32) -> Result<bool, AllocError>
        ensures read { IfOk result (λ is_taken. is_taken ≡ true → (first : PartTaker) → HasRead depth (PutsOne (HasParts first self.old) (HasParts first self.new) (codes "geometry")) reader.old reader.new) }
    {
        if self.shape.is_some() {
            return Ok(false);
        }
        match straight_geometry(reader, depth, self.places, &mut self.left)? {
            None => Ok(false),
            Some(shape) => {
                self.shape = Some(shape);
                Ok(true)
            }
        }
    }

    fn take_properties(&mut self, reader: &mut Reader<'_>, depth: u32) -> Result<bool, AllocError>
        ensures read { IfOk result (λ is_taken. is_taken ≡ true → (first : PartTaker) → HasRead depth (PutsOne (HasParts first self.old) (HasParts first self.new) (codes "properties")) reader.old reader.new) }
    {
        match straight_properties(self.width, reader, depth)? {
            None => Ok(false),
            Some(fields) => {
                self.fields = Some(fields);
                Ok(true)
            }
        }
    }
}

/// The next feature of a text, with white space around it; `None` where it has to be read as a JSON value.
///
/// Cost: room is made for `width` properties at first.
pub fn straight_feature(
    width: u32,
    reader: &mut Reader<'_>,
    depth: u32,
    places: u8,
    left: &mut u32,
) -> Result<Option<Feature>, AllocError>
    ensures read { IfOk result (λ found. IfSome found (λ read. HasRead depth (ReadsAs (feature places) left.old read left.new) reader.old reader.new)) }
{
    let mut taker = PartTaker {
        width,
        places,
        left: *left,
        is_feature: false,
        fields: None,
        shape: None,
    };
    if !reader.members_by(depth, &mut taker)? || !taker.is_feature {
        return Ok(None);
    }
    let PartTaker {
        left: rest,
        fields,
        shape,
        ..
    } = taker;
    let (Some(fields), Some(shape)) = (fields, shape) else {
        return Ok(None);
    };
    *left = rest;
    Ok(Some(Feature { shape, fields }))
}
