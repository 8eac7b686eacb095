ghost use Rattle.std.specs.Prelude.{◌≡◌, length};

use arc_table::{Polys, SignedPaths};
use grid_base::{Kind, PtList};
use json_values::Table;
use lists::ItemList;
use std::marker::Model;
use text_core::Text;

/// A feature's geometry in arcs: nothing, or at least one polygon, line or point.
#[derive(Drop)]
pub enum ArcShape {
    Nothing,
    Polygons(Polys),
    Lines(SignedPaths),
    Points(PtList),
}

/// A list of shapes in arcs.
pub type ArcShapeList = ItemList<ArcShape>;

/// A layer of features of one kind whose lines and rings are made of arcs: a row and a shape for each, in order.
#[derive(Drop)]
pub struct ArcLayer {
    pub name: Text,
    pub kind: Kind,
    pub table: Table,
    pub shapes: ArcShapeList,
}

impl Model for ArcLayer {
    ghost use Rattle.std.specs.Prelude.{◌≡◌, length, refl};
    ghost use Rattle.std.specs.Coded.{coded×, coded_ℕ, coded_list, code_by};
    ghost use Rattle.json_values.specs.contracts.table.Table as cells;
    ghost use Rattle.grid_base.specs.contracts.kinds.Kind as kinds;
    ghost use Rattle.topo_io.specs.contracts.arc_layer.ArcShape as arcs;
    ghost use Rattle.topo_io.specs.ArcLayerContent.{ArcLayerContent};

    ghost Value = { ArcLayerContent };

    ghost coded = { code_by _ (coded× (coded× (coded_list coded_ℕ) kinds.the_row.coded) (coded× cells.the_row.coded (coded_list arcs.the_row.coded))) (λ l. ((l.name, l.kind), (l.table, l.shapes))) (λ p. record { name = p.0.0; kind = p.0.1; table = p.1.0; shapes = p.1.1 }) (λ _. refl) };

    ghost view = { λ l. record { name = l.name; kind = l.kind; table = l.table; shapes = l.shapes } };

    ghost invariant = { λ l. length l.shapes ≡ length l.table.rows };
}

/// A list of layers in arcs.
pub type ArcLayers = ItemList<ArcLayer>;
