//! The benches of a chip and of those in which a cluster is one instance: the chip's own is the first.

ghost use Rattle.std.specs.Prelude.{◌≡◌, ◌<◌, ◌+◌, length, slice_get, Some, IfSome, IsSomeAnd, IfOk};
ghost use Rattle.std.specs.List.{All};
ghost use Rattle.ca_view.specs.Core.{core_of};
ghost use Rattle.ca_view.specs.View.{IsViewOf};
ghost use Rattle.ca_judge.specs.Attempt.{IsTriedOn};
ghost use Rattle.ca_sweep.specs.Seen.{IsForChip};
ghost use Rattle.ca_targets.specs.Targets.{IsLibraryDefect};
ghost use Rattle.ca_bridges.specs.code.Parts.{AreEach, IsPartOf, AreParts};

use ca_base::NoMemory;
use ca_choice::CheapestWay;
use ca_engine::{ChipBench, ChipDefects, reserve_finder};
use ca_flat::ExposableDefects;
use ca_judge::{Attempts, ScopedChoice};
use ca_rows::ChipRows;
use ca_sweep::{Finder, FlipFinder};
use ca_targets::{Cluster, ShortList, library_defects_are_placed};
use ca_view::View;
use std::alloc::Global;

// The cluster at a place.
fn cluster_at(clusters: &[Cluster], k: usize) -> &Cluster
    requires { k < length clusters.now }
    ensures { slice_get clusters.now k ≡ Some result.now }
{
    &clusters[k]
}

/// The views of the chips of clusters.
pub(crate) fn views_of<'a>(
    alloc: Global,
    clusters: &'a [Cluster],
) -> Result<Vec<View<'a>>, NoMemory>
    ensures { IfOk result (λ views. AreEach (λ cluster view. IsViewOf cluster.chip view)
        clusters.now (length clusters.now) views.items) }
{
    let mut views = Vec::new(alloc);
    for k in 0..clusters.len() {
        let cluster = cluster_at(clusters, k);
        let view = View::new(alloc, &cluster.chip)?;
        views.push(view)?;
    }
    Ok(views)
}

/// The rows of the defects of these chips.
pub(crate) fn rows_of<'a>(
    alloc: Global,
    clusters: &'a [Cluster],
) -> Result<Vec<ChipRows<'a>>, NoMemory>
    ensures { IfOk result (λ rows. AreEach (λ cluster of. core_of of.chip ≡ core_of cluster.chip)
        clusters.now (length clusters.now) rows.items) }
{
    let mut rows = Vec::new(alloc);
    for k in 0..clusters.len() {
        rows.push(ChipRows::new(alloc, &clusters[k].chip)?)?;
    }
    Ok(rows)
}

// The view at a place.
fn view_at<'a>(views: &'a [View<'a>], k: usize) -> &'a View<'a>
    requires { k < length views.now }
    ensures { slice_get views.now k ≡ Some result.now }
{
    &views[k]
}

/// The choice of bits for a chip.
pub(crate) fn choice_of<'a>(
    alloc: Global,
    view: &'a View<'a>,
) -> Result<ScopedChoice<'a, CheapestWay<'a>>, NoMemory>
    ensures { IfOk result (IsTriedOn view.now.core view.now.ranks) }
{
    let cheapest = CheapestWay::reserve(alloc, view)?;
    ScopedChoice::reserve(alloc, view, cheapest)
}

/// A choice of bits for each of these views.
pub(crate) fn choices_of<'a>(
    alloc: Global,
    views: &'a [View<'a>],
) -> Result<Vec<ScopedChoice<'a, CheapestWay<'a>>>, NoMemory>
    ensures { IfOk result (λ choices. AreEach (λ view choice. IsTriedOn view.core view.ranks choice)
        views.now (length views.now) choices.items) }
{
    let mut choices = Vec::new(alloc);
    for k in 0..views.len() {
        let view = view_at(views, k);
        let choice = choice_of(alloc, view)?;
        choices.push(choice)?;
    }
    Ok(choices)
}

/// A finder for each of these views.
pub(crate) fn finders_of<'a>(
    alloc: Global,
    views: &'a [View<'a>],
) -> Result<Vec<Finder<'a>>, NoMemory>
    ensures { IfOk result (λ finders. AreEach (λ view finder. IsForChip view.core view.ranks finder)
        views.now (length views.now) finders.items) }
{
    let mut finders = Vec::new(alloc);
    for k in 0..views.len() {
        let view = view_at(views, k);
        let finder = reserve_finder(alloc, view)?;
        finders.push(finder)?;
    }
    Ok(finders)
}

// The same shorts once more.
fn copied(alloc: Global, shorts: &ShortList) -> Result<ChipDefects, NoMemory>
    ensures { IfOk result (λ copy. copy ≡ shorts.now) }
{
    let mut copy = ChipDefects::new(alloc);
    for place in 0..shorts.len() {
        copy.push(shorts.get(place))?;
    }
    Ok(copy)
}

// The bench of a chip for some defects of its library instances. It is for rows, a choice and a finder of any
// type, so that it has few parts to the prover.
fn part_of<'a, R: ExposableDefects, P: Attempts + Drop, F: FlipFinder + Drop>(
    alloc: Global,
    view: &'a View<'a>,
    rows: &'a R,
    choice: P,
    finder: F,
    shorts: &ShortList,
    budget: u32,
) -> Result<ChipBench<'a, R, P, F>, NoMemory>
    requires rows { R.chip rows.now ≡ view.now.core }
    requires choice { IsTriedOn view.now.core view.now.ranks (P.tried choice) }
    requires finder { IsForChip view.now.core view.now.ranks (F.loaded finder) }
    requires shorts { All (IsLibraryDefect view.now.chip) shorts.now }
    ensures { IfOk result (IsPartOf view.now.core shorts.now budget) }
{
    view.viewed();
    library_defects_are_placed();
    let defects = copied(alloc, shorts)?;
    let part = ChipBench::reserve_for(alloc, view, rows, choice, finder, defects, budget)?;
    Ok(part)
}

// The rows at a place.
fn row_at<R>(rows: &[R], k: usize) -> &R
    requires { k < length rows.now }
    ensures { slice_get rows.now k ≡ Some result.now }
{
    &rows[k]
}

// The bench of the cluster at a place.
fn cluster_part<'a, R: ExposableDefects, P: Attempts + Drop, F: FlipFinder + Drop>(
    alloc: Global,
    clusters: &'a [Cluster],
    views: &'a [View<'a>],
    rows: &'a [R],
    k: usize,
    choice: P,
    finder: F,
    budget: u32,
) -> Result<ChipBench<'a, R, P, F>, NoMemory>
    requires within { k < length clusters.now }
    requires views { AreEach (λ cluster view. IsViewOf cluster.chip view)
        clusters.now (length clusters.now) views.now }
    requires rows { AreEach (λ cluster one. R.chip one ≡ core_of cluster.chip)
        clusters.now (length clusters.now) rows.now }
    requires choice { IfSome (slice_get views.now k)
        (λ view. IsTriedOn view.core view.ranks (P.tried choice)) }
    requires finder { IfSome (slice_get views.now k)
        (λ view. IsForChip view.core view.ranks (F.loaded finder)) }
    requires shorts { All (λ cluster. All (IsLibraryDefect cluster.chip) cluster.shorts) clusters.now }
    ensures { IfOk result (λ part. IsSomeAnd (slice_get clusters.now k)
        (λ cluster. IsPartOf (core_of cluster.chip) cluster.shorts budget part)) }
{
    let cluster = cluster_at(clusters, k);
    let view = view_at(views, k);
    let row = row_at(rows, k);
    let part = part_of(alloc, view, row, choice, finder, &cluster.shorts, budget)?;
    Ok(part)
}

/// The bench of a chip for no defects, and those of clusters, each for its shorts.
pub(crate) fn parts_of<'a, R: ExposableDefects, P: Attempts + Drop, F: FlipFinder + Drop>(
    alloc: Global,
    own: &'a View<'a>,
    own_rows: &'a R,
    clusters: &'a [Cluster],
    views: &'a [View<'a>],
    rows: &'a [R],
    own_choice: P,
    choices: Vec<P>,
    own_finder: F,
    finders: Vec<F>,
    budget: u32,
) -> Result<Vec<ChipBench<'a, R, P, F>>, NoMemory>
    requires own { R.chip own_rows.now ≡ own.now.core }
    requires views { AreEach (λ cluster view. IsViewOf cluster.chip view)
        clusters.now (length clusters.now) views.now }
    requires rows { AreEach (λ cluster one. R.chip one ≡ core_of cluster.chip)
        clusters.now (length clusters.now) rows.now }
    requires own_choice { IsTriedOn own.now.core own.now.ranks (P.tried own_choice) }
    requires choices { AreEach (λ view choice. IsTriedOn view.core view.ranks (P.tried choice))
        views.now (length views.now) choices.items }
    requires own_finder { IsForChip own.now.core own.now.ranks (F.loaded own_finder) }
    requires finders { AreEach (λ view finder. IsForChip view.core view.ranks (F.loaded finder))
        views.now (length views.now) finders.items }
    requires shorts { All (λ cluster. All (IsLibraryDefect cluster.chip) cluster.shorts) clusters.now }
    ensures { IfOk result (λ parts. AreParts own.now.core budget clusters.now
        (length clusters.now) parts.items) }
{
    let mut choices = choices;
    let mut finders = finders;
    let mut parts = Vec::new(alloc);
    let none = ShortList::new(alloc);
    let good = part_of(alloc, own, own_rows, own_choice, own_finder, &none, budget)?;
    parts.push(good)?;
    for k in 0..clusters.len() {
        let choice = choices.remove(0);
        let finder = finders.remove(0);
        let part = cluster_part(alloc, clusters, views, rows, k, choice, finder, budget)?;
        parts.push(part)?;
    }
    Ok(parts)
}
