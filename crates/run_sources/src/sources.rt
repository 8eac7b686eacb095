ghost use Rattle.std.specs.Prelude.{◌≡◌, ◌≤◌, ◌<◌, ◌-◌, ◌^◌, ◌++◌, ◌∷◌, [], length, map, sum_by, All, Err, IfErr, IfOk, OnOk, OnErr};
ghost use Rattle.run_sources.specs.declared.fault.SourceFault.TheVariants.{Memory};
ghost use Rattle.io_core.specs.Counts.{NoneFell};
ghost use Rattle.grid_base.specs.Grid.{most_places};
ghost use Rattle.geojson_io.specs.Sound.{LayerIsSound};
ghost use Rattle.run_sources.specs.Budget.{whole_budget, budget_after, feature_count, position_count, positions_in, positions_along};
ghost use Rattle.run_sources.specs.Sources.{Grew, BytesMean, stopped, sources_seen, SourceGives, SourceStops, GivesAll, StopsAtSource};

use crate::decoding::{DecodeStop, decoded};
use crate::fault::SourceFault;
use geojson_io::{GeoLayer, GeoLayers, GeoShape, Room};
use grid_base::{PolygonRings, PtList};
use io_core::{Bytes, FileStop, Files, ReadStop, Source, read_file, read_whole};
use job_terms::{Owner, SourceWord};
use std::alloc::Global;

/// The most bytes that the sources of a run have together.
const MAX_SOURCE_BYTES: u64 = 67_108_864;
/// The most positions and features that they have together.
const WHOLE_ROOM: Room = Room {
    positions: 2_000_000,
    features: 500_000,
};

/// The layers of a source, and what they were read for.
#[derive(Drop)]
pub struct ReadSource {
    pub owner: Owner,
    pub layers: GeoLayers,
}

/// What a run may still read.
#[derive(Clone, Copy)]
struct Budget {
    bytes: u64,
    room: Room,
}

impl Budget {
    fn whole() -> Budget
        ensures whole { result ≡ whole_budget }
    {
        Budget {
            bytes: MAX_SOURCE_BYTES,
            room: WHOLE_ROOM,
        }
    }

    // What is left after `bytes` bytes, which gave these layers.
    fn left_after(self, bytes: u64, layers: &GeoLayers) -> Budget
        ensures left { result ≡ budget_after self bytes layers.now }
    {
        let layers = layers.as_slice();
        Budget {
            bytes: self.bytes.saturating_sub(bytes),
            room: Room {
                positions: after_layers(self.room.positions, layers),
                features: after_features(self.room.features, layers),
            },
        }
    }
}

fn after_features(room: u32, layers: &[GeoLayer]) -> u32
    ensures left { result ≡ room - sum_by feature_count layers.now }
{
    let mut left = room;
    for layer in layers {
        left = left.saturating_sub(layer.shapes.len());
    }
    left
}

fn after_layers(room: u32, layers: &[GeoLayer]) -> u32
    ensures left { result ≡ room - sum_by position_count layers.now }
{
    let mut left = room;
    for layer in layers {
        left = after_shapes(left, layer.shapes.as_slice());
    }
    left
}

fn after_shapes(room: u32, shapes: &[GeoShape]) -> u32
    ensures left { result ≡ room - sum_by positions_in shapes.now }
{
    let mut left = room;
    for shape in shapes {
        left = after_shape(left, shape);
    }
    left
}

fn after_shape(room: u32, shape: &GeoShape) -> u32
    ensures left { result ≡ room - positions_in shape.now }
{
    match shape {
        GeoShape::Nothing => room,
        GeoShape::Points(points) => room.saturating_sub(points.len()),
        GeoShape::Lines(lines) => after_paths(room, lines.as_slice()),
        GeoShape::Polygons(polygons) => after_polygons(room, polygons.as_slice()),
    }
}

fn after_polygons(room: u32, polygons: &[PolygonRings]) -> u32
    ensures left { result ≡ room - sum_by positions_along polygons.now }
{
    let mut left = room;
    for polygon in polygons {
        left = after_paths(left, polygon.as_slice());
    }
    left
}

fn after_paths(room: u32, paths: &[PtList]) -> u32
    ensures left { result ≡ room - positions_along paths.now }
{
    let mut left = room;
    for path in paths {
        left = left.saturating_sub(path.len());
    }
    left
}

/// Reads the sources in order, on a grid of `places` decimal places.
///
/// Errors: why the first source that isn't accepted ends the run.
#[tactic(auto, using(crate::proofs::Growing::grew_same, crate::proofs::Growing::grew_on, crate::proofs::Growing::none_fell_same, crate::proofs::Growing::none_fell_on))]
pub fn read_sources<F: Files, I: Source>(
    alloc: Global,
    places: u8,
    sources: &[SourceWord],
    files: &mut F,
    input: &mut I,
) -> Result<Vec<ReadSource>, SourceFault>
    requires places { places ≤ most_places }
    requires few { length sources.now < 2 ^ 32 }
    ensures stops { IfErr result (StopsAtSource places sources.now
        (sources_seen F.Files I.Source files.old input.old)
        (sources_seen F.Files I.Source files.new input.new)) }
    ensures grew { Grew
        (sources_seen F.Files I.Source files.old input.old)
        (sources_seen F.Files I.Source files.new input.new) }
    ensures writes { NoneFell (F.write_faults files.old) (F.write_faults files.new) }
    ensures sound { IfOk result (λ all. All (λ read. All LayerIsSound read.layers) all.items) }
    ensures owners { IfOk result (λ all. map (λ read. read.owner) all.items ≡ map (λ source. source.owner) sources.now) }
    ensures gives { IfOk result (λ all. GivesAll places sources.now
        (sources_seen F.Files I.Source files.old input.old)
        (sources_seen F.Files I.Source files.new input.new) (map (λ read. read.layers) all.items)) }
{
    let mut all = Vec::new(alloc);
    let mut budget = Budget::whole();
    for (i, source) in sources.iter().enumerate() {
        let number = i as u32 + 1;
        let read = read_source(alloc, places, number, source, &mut budget, files, input);
        let layers = match read {
            Ok(layers) => layers,
            Err(fault) => return Err(fault),
        };
        let found = ReadSource {
            owner: source.owner,
            layers,
        };
        match keep(&mut all, found) {
            Ok(()) => {}
            Err(fault) => return Err(fault),
        }
    }
    Ok(all)
}

fn keep(all: &mut Vec<ReadSource>, read: ReadSource) -> Result<(), SourceFault>
    ensures kept { OnOk result (all.new.items ≡ all.old.items ++ read ∷ []) }
    ensures memory { OnErr result (result ≡ Err Memory) }
{
    match all.push(read) {
        Ok(()) => Ok(()),
        Err(_) => Err(SourceFault::Memory),
    }
}

// The layers of one source, and what may be read after it.
fn read_source<F: Files, I: Source>(
    alloc: Global,
    places: u8,
    number: u32,
    source: &SourceWord,
    budget: &mut Budget,
    files: &mut F,
    input: &mut I,
) -> Result<GeoLayers, SourceFault>
    requires { places ≤ most_places }
    ensures stops { IfErr result (SourceStops places budget.old number source.now
        (sources_seen F.Files I.Source files.old input.old)
        (sources_seen F.Files I.Source files.new input.new)) }
    ensures grew { Grew
        (sources_seen F.Files I.Source files.old input.old)
        (sources_seen F.Files I.Source files.new input.new) }
    ensures writes { NoneFell (F.write_faults files.old) (F.write_faults files.new) }
    ensures sound { IfOk result (λ layers. All LayerIsSound layers) }
    ensures gives { IfOk result (λ layers. SourceGives places source.now budget.old budget.new
        (sources_seen F.Files I.Source files.old input.old)
        (sources_seen F.Files I.Source files.new input.new) layers) }
{
    let bytes = match read_bytes(alloc, source, budget.bytes, files, input) {
        Ok(bytes) => bytes,
        Err(stop) => return Err(stopped(stop, number)),
    };
    match decoded(alloc, source, places, budget.room, bytes.as_slice()) {
        Ok(layers) => {
            *budget = budget.left_after(bytes.len(), &layers);
            Ok(layers)
        }
        Err(DecodeStop::Refused(why)) => Err(SourceFault::BadInput {
            source: number,
            why,
        }),
        Err(DecodeStop::Memory) => Err(SourceFault::Memory),
    }
}

fn stopped(stop: FileStop, source: u32) -> SourceFault
    ensures exact { result ≡ stopped stop source }
{
    match stop {
        FileStop::Fault => SourceFault::ReadFault { source },
        FileStop::Missing => SourceFault::Missing { source },
        FileStop::TooLong => SourceFault::TooLong { source },
        FileStop::Memory => SourceFault::Memory,
    }
}

// The bytes of a file or of standard input, `limit` at most.
fn read_bytes<F: Files, I: Source>(
    alloc: Global,
    source: &SourceWord,
    limit: u64,
    files: &mut F,
    input: &mut I,
) -> Result<Bytes, FileStop>
    ensures means { BytesMean source.now limit
        (sources_seen F.Files I.Source files.old input.old)
        (sources_seen F.Files I.Source files.new input.new) result }
    ensures grew { Grew
        (sources_seen F.Files I.Source files.old input.old)
        (sources_seen F.Files I.Source files.new input.new) }
    ensures writes { NoneFell (F.write_faults files.old) (F.write_faults files.new) }
{
    if !source.standard {
        return read_file(alloc, files, source.name.as_str(), limit);
    }
    match read_whole(alloc, input, limit) {
        Ok(bytes) => Ok(bytes),
        Err(ReadStop::Fault) => Err(FileStop::Fault),
        Err(ReadStop::TooLong) => Err(FileStop::TooLong),
        Err(ReadStop::Memory) => Err(FileStop::Memory),
    }
}
