ghost use Rattle.std.specs.Prelude.{◌≡◌, ◌++◌, ◌<◌, All, IfOk, OnOk, ℕ};
ghost use Rattle.face_walk.specs.Places.{HasArc};
ghost use Rattle.std.specs.List.{flat_map};
ghost use Rattle.line_ops.specs.Inside.{is_inside, is_kept, is_outside};
ghost use Rattle.line_ops.specs.Runs.{ended, runs_where};

use crate::inside::is_inside;
use arc_table::{SignedPath, SignedPaths};
use face_sets::FaceSet;
use face_walk::Faces;
use grid_base::SignedArc;
use std::alloc::{AllocError, Global};

/// Of which arcs runs are made.
#[derive(Clone, Copy, PartialEq, Eq)]
enum Keeps {
    Inside,
    Outside,
}

/// The maximal runs of arcs of each path that are inside the cut set, path by path, in order.
///
/// A closed path isn't read around: a run at its end and one at its beginning stay two.
pub fn clip_paths(
    alloc: Global,
    f: &Faces,
    paths: &SignedPaths,
    cut_set: &FaceSet,
) -> Result<SignedPaths, AllocError>
    requires arcs { All (All (HasArc f.now)) paths.now }
    ensures exact { IfOk result (λ runs. runs ≡ flat_map (runs_where (is_inside f.now cut_set.now)) paths.now) }
    ensures there { (n : ℕ) → All (All (λ a. a.arc < n)) paths.now → IfOk result (All (All (λ a. a.arc < n))) }
{
    runs_of_paths(alloc, f, paths, cut_set, Keeps::Inside)
}

/// The maximal runs of arcs of each path that aren't inside the cut set, path by path, in order.
///
/// A closed path isn't read around: a run at its end and one at its beginning stay two.
pub fn erase_paths(
    alloc: Global,
    f: &Faces,
    paths: &SignedPaths,
    cut_set: &FaceSet,
) -> Result<SignedPaths, AllocError>
    requires arcs { All (All (HasArc f.now)) paths.now }
    ensures exact { IfOk result (λ runs. runs ≡ flat_map (runs_where (is_outside f.now cut_set.now)) paths.now) }
    ensures there { (n : ℕ) → All (All (λ a. a.arc < n)) paths.now → IfOk result (All (All (λ a. a.arc < n))) }
{
    runs_of_paths(alloc, f, paths, cut_set, Keeps::Outside)
}

fn runs_of_paths(
    alloc: Global,
    f: &Faces,
    paths: &SignedPaths,
    cut_set: &FaceSet,
    keeps: Keeps,
) -> Result<SignedPaths, AllocError>
    requires arcs { All (All (HasArc f.now)) paths.now }
    ensures exact { IfOk result (λ runs. runs ≡ flat_map (runs_where (is_kept keeps f.now cut_set.now)) paths.now) }
{
    let mut runs = SignedPaths::new(alloc);
    for path in paths.as_slice() {
        push_runs(alloc, &mut runs, f, path.as_slice(), cut_set, keeps)?;
    }
    Ok(runs)
}

// Adds the runs of one path.
fn push_runs(
    alloc: Global,
    runs: &mut SignedPaths,
    f: &Faces,
    path: &[SignedArc],
    cut_set: &FaceSet,
    keeps: Keeps,
) -> Result<(), AllocError>
    requires arcs { All (HasArc f.now) path.now }
    ensures exact { OnOk result (runs.new ≡ runs.old ++ runs_where (is_kept keeps f.now cut_set.now) path.now) }
{
    let mut begun = SignedPath::new(alloc);
    for a in path {
        if is_kept(f, cut_set, *a, keeps) {
            begun.push(*a)?;
        } else {
            push_run(runs, begun)?;
            begun = SignedPath::new(alloc);
        }
    }
    push_run(runs, begun)
}

fn is_kept(f: &Faces, cut_set: &FaceSet, a: SignedArc, keeps: Keeps) -> bool
    requires arc { HasArc f.now a }
    ensures exact { result ≡ is_kept keeps f.now cut_set.now a }
{
    match keeps {
        Keeps::Inside => is_inside(f, cut_set, a),
        Keeps::Outside => !is_inside(f, cut_set, a),
    }
}

// Adds a run, where it is one.
fn push_run(runs: &mut SignedPaths, run: SignedPath) -> Result<(), AllocError>
    ensures ok { OnOk result (runs.new ≡ runs.old ++ ended run) }
{
    if run.len() > 0 {
        runs.push(run)?;
    }
    Ok(())
}
