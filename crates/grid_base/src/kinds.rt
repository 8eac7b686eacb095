/// What a layer's features are.
#[derive(Clone, Copy, PartialEq, Eq, Debug)]
pub enum Kind {
    Polygon,
    Line,
    Point,
    Table,
}

/// Which of several polygon features gets a face that they overlap in.
#[derive(Clone, Copy, PartialEq, Eq, Debug)]
pub enum OverlapRule {
    MinId,
    MaxId,
    MinArea,
    MaxArea,
}
