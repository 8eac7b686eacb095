ghost use Rattle.std.specs.Prelude.{◌≡◌, length};

use crate::shape::GeoShapeList;
use grid_base::Kind;
use json_read::Table;
use lists::ItemList;
use std::marker::Model;
use text_core::Text;

/// A layer of features of one kind: a row and a shape for each, in order.
#[derive(Drop)]
pub struct GeoLayer {
    pub name: Text,
    pub kind: Kind,
    pub table: Table,
    pub shapes: GeoShapeList,
}

impl Model for GeoLayer {
    ghost use Rattle.std.specs.Prelude.{◌≡◌, length, refl};
    ghost use Rattle.std.specs.Coded.{coded×, coded_ℕ, coded_list, code_by};
    ghost use Rattle.json_values.specs.contracts.table.Table as cells;
    ghost use Rattle.grid_base.specs.contracts.kinds.Kind as kinds;
    ghost use Rattle.geojson_io.specs.contracts.shape.GeoShape as geo;
    ghost use Rattle.geojson_io.specs.LayerContent.{LayerContent};

    ghost Value = { LayerContent };

    ghost coded = { code_by _ (coded× (coded× (coded_list coded_ℕ) kinds.the_row.coded) (coded× cells.the_row.coded (coded_list geo.the_row.coded))) (λ l. ((l.name, l.kind), (l.table, l.shapes))) (λ p. record { name = p.0.0; kind = p.0.1; table = p.1.0; shapes = p.1.1 }) (λ _. refl) };

    ghost view = { λ l. record { name = l.name; kind = l.kind; table = l.table; shapes = l.shapes } };

    ghost invariant = { λ l. length l.shapes ≡ length l.table.rows };
}

/// A list of layers.
pub type GeoLayers = ItemList<GeoLayer>;

/// What may still be read.
#[derive(Clone, Copy, PartialEq, Eq, Debug)]
pub struct Room {
    pub positions: u32,
    pub features: u32,
}
