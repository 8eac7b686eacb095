ghost use Rattle.std.specs.Prelude.{◌≡◌, ◌<◌, ◌++◌, ◌-ℤ◌, All, OnOk, length};
ghost use Rattle.grid_base.specs.Sizes.{IsGridNumber};
ghost use Rattle.geojson_io.specs.Texts.{point_text};
ghost use Rattle.topo_io.specs.Texts.{arc_text, numbered_arc_text, arcs_text};

use arc_table::ArcTable;
use geojson_io::{write_comma, write_pair};
use grid_base::{ArcId, Pt};
use std::alloc::AllocError;
use text_core::Bytes;

// The way to a point from (x, y).
fn write_difference(point: &Pt, x: i64, y: i64, out: &mut Bytes) -> Result<(), AllocError>
    requires across { IsGridNumber x }
    requires upward { IsGridNumber y }
    ensures written { OnOk result (out.new ≡ out.old ++ point_text 0 (record { x = point.now.x -ℤ x; y = point.now.y -ℤ y })) }
{
    write_pair(point.x() - x, point.y() - y, 0, out)
}

// The first position by itself, each other as a difference.
fn write_arc(points: &[Pt], out: &mut Bytes) -> Result<(), AllocError>
    ensures written { OnOk result (out.new ≡ out.old ++ arc_text points.now) }
{
    out.push(b'[')?;
    let mut x: i64 = 0;
    let mut y: i64 = 0;
    for (i, point) in points.iter().enumerate() {
        write_comma(i, out)?;
        write_difference(point, x, y, out)?;
        x = point.x();
        y = point.y();
    }
    out.push(b']')
}

fn write_numbered(arcs: &ArcTable, id: ArcId, out: &mut Bytes) -> Result<(), AllocError>
    requires { id < length arcs.now }
    ensures written { OnOk result (out.new ≡ out.old ++ numbered_arc_text arcs.now id) }
{
    write_arc(arcs.points_of(id), out)
}

/// The arcs with these numbers, with commas between them.
pub fn write_arcs(arcs: &ArcTable, used: &[ArcId], out: &mut Bytes) -> Result<(), AllocError>
    requires { All (λ n. n < length arcs.now) used.now }
    ensures written { OnOk result (out.new ≡ out.old ++ arcs_text used.now arcs.now) }
{
    for (i, id) in used.iter().enumerate() {
        write_comma(i, out)?;
        write_numbered(arcs, *id, out)?;
    }
    Ok(())
}
