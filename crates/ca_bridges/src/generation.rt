//! Pairs for the shorts of merged chips.

ghost use Rattle.std.specs.Prelude.{◌≡◌, ◌<◌, ◌≤◌, ◌+◌, ◌∷◌, List, length, map, IfOk};
ghost use Rattle.std.specs.List.{All};
ghost use Rattle.ca_flat.specs.Pair.{bit_count};
ghost use Rattle.ca_view.specs.Core.{core_of};
ghost use Rattle.ca_view.specs.View.{IsViewOf};
ghost use Rattle.ca_credit.specs.Good.{IsGood};
ghost use Rattle.ca_credit.specs.declared.limit.TheConstants.{MOST_PAIRS};
ghost use Rattle.ca_benches.specs.Benches.{task_of, IsPart, IsStationed};
ghost use Rattle.ca_judge.specs.Attempt.{IsTriedOn};
ghost use Rattle.ca_sweep.specs.Seen.{IsForChip};
ghost use Rattle.ca_targets.specs.Targets.{IsLibraryDefect};
ghost use Rattle.ca_bridges.specs.code.Parts.{AreEach, StandsInFor, IsGoodFor};
ghost use Rattle.ca_bridges.specs.Numbers.{IsStationOf};

use crate::parts::{choice_of, choices_of, finders_of, parts_of, rows_of, views_of};
use ca_base::NoMemory;
use ca_benches::{Benches, Stations};
use ca_choice::CheapestWay;
use ca_engine::reserve_finder;
use ca_flat::ExposableDefects;
use ca_generate::{Bench, GenerateFault, Generated, Watch, generate};
use ca_judge::Attempts;
use ca_linked::Chip;
use ca_pair::Pair;
use ca_rows::ChipRows;
use ca_sweep::FlipFinder;
use ca_targets::Cluster;
use ca_view::View;
use std::alloc::Global;

// The pair whose bits are all 0.
fn zeros(alloc: Global, own: &View<'_>) -> Result<Pair, NoMemory>
    ensures { IfOk result (λ pair. length pair ≡ bit_count own.now.core) }
{
    own.viewed();
    let mut pair = Pair::new(alloc);
    for bit in 0..2 * own.input_count() {
        pair.push(false)?;
    }
    Ok(pair)
}

// What is generated with a bench of a chip, the first, and benches of chips that stand in for it.
fn generated_by<B: Bench + Drop, T: Watch>(
    alloc: Global,
    benches: Vec<B>,
    stations: Stations,
    rest: Pair,
    watch: &mut T,
) -> Result<Generated, NoMemory>
    requires some { 0 < length benches.items }
    requires sized { (good : B) (parts : List B) → benches.items ≡ good ∷ parts
        → length rest ≡ bit_count (B.task good).chip }
    requires parts { (good : B) (parts : List B) → benches.items ≡ good ∷ parts
        → All (IsPart (B.task good)) (map B.task parts) }
    requires stations { (good : B) (parts : List B) → benches.items ≡ good ∷ parts
        → All (IsStationed (map B.task parts)) stations }
    requires few { length stations ≤ MOST_PAIRS }
    ensures { (good : B) (parts : List B) → benches.items ≡ good ∷ parts
        → IfOk result (λ made. IsGood (task_of (B.task good) (map B.task parts) stations)
        made.pairs made.aims made.verdicts) }
{
    let mut parts = benches;
    let good = parts.remove(0);
    let mut all = Benches::new(good, parts, stations, rest);
    let made = generate(alloc, &mut all, watch);
    drop(all);
    match made {
        Ok(made) => Ok(made),
        Err(fault) => Err(no_memory(fault)),
    }
}

// No more pairs are found than there are shorts.
fn no_memory(fault: GenerateFault) -> NoMemory {
    match fault {
        GenerateFault::NoMemory | GenerateFault::TooManyPairs { .. } => NoMemory,
    }
}

// The same with what the benches are made of, a choice of bits and a finder for each. It is for rows, a
// choice and a finder of any type, so that the benches have few parts to the prover.
fn generated_over<R: ExposableDefects, P: Attempts + Drop, F: FlipFinder + Drop, T: Watch>(
    alloc: Global,
    own: &View<'_>,
    own_rows: &R,
    clusters: &[Cluster],
    views: &[View<'_>],
    rows: &[R],
    own_choice: P,
    choices: Vec<P>,
    own_finder: F,
    finders: Vec<F>,
    stations: Stations,
    budget: u32,
    watch: &mut T,
) -> Result<Generated, NoMemory>
    requires own { R.chip own_rows.now ≡ own.now.core }
    requires views { AreEach (λ cluster view. IsViewOf cluster.chip view)
        clusters.now (length clusters.now) views.now }
    requires rows { AreEach (λ cluster one. R.chip one ≡ core_of cluster.chip)
        clusters.now (length clusters.now) rows.now }
    requires own_choice { IsTriedOn own.now.core own.now.ranks (P.tried own_choice) }
    requires choices { AreEach (λ view choice. IsTriedOn view.core view.ranks (P.tried choice))
        views.now (length views.now) choices.items }
    requires own_finder { IsForChip own.now.core own.now.ranks (F.loaded own_finder) }
    requires finders { AreEach (λ view finder. IsForChip view.core view.ranks (F.loaded finder))
        views.now (length views.now) finders.items }
    requires shorts { All (λ cluster. All (IsLibraryDefect cluster.chip) cluster.shorts) clusters.now }
    requires stand_in { All (StandsInFor own.now.chip) clusters.now }
    requires stations { All (IsStationOf clusters.now) stations }
    requires few { length stations ≤ MOST_PAIRS }
    ensures { IfOk result (IsGoodFor own.now.chip budget clusters.now stations) }
{
    own.viewed();
    let rest = zeros(alloc, own)?;
    let parts = parts_of(
        alloc, own, own_rows, clusters, views, rows, own_choice, choices, own_finder, finders,
        budget,
    )?;
    generated_by(alloc, parts, stations, rest, watch)
}

// The same with a finder for each chip.
fn generated_found<'a, R: ExposableDefects, P: Attempts + Drop, T: Watch>(
    alloc: Global,
    own: &'a View<'a>,
    own_rows: &R,
    clusters: &'a [Cluster],
    views: &'a [View<'a>],
    rows: &[R],
    own_choice: P,
    choices: Vec<P>,
    stations: Stations,
    budget: u32,
    watch: &mut T,
) -> Result<Generated, NoMemory>
    requires own { R.chip own_rows.now ≡ own.now.core }
    requires views { AreEach (λ cluster view. IsViewOf cluster.chip view)
        clusters.now (length clusters.now) views.now }
    requires rows { AreEach (λ cluster one. R.chip one ≡ core_of cluster.chip)
        clusters.now (length clusters.now) rows.now }
    requires own_choice { IsTriedOn own.now.core own.now.ranks (P.tried own_choice) }
    requires choices { AreEach (λ view choice. IsTriedOn view.core view.ranks (P.tried choice))
        views.now (length views.now) choices.items }
    requires shorts { All (λ cluster. All (IsLibraryDefect cluster.chip) cluster.shorts) clusters.now }
    requires stand_in { All (StandsInFor own.now.chip) clusters.now }
    requires stations { All (IsStationOf clusters.now) stations }
    requires few { length stations ≤ MOST_PAIRS }
    ensures { IfOk result (IsGoodFor own.now.chip budget clusters.now stations) }
{
    let finders = finders_of(alloc, views)?;
    let own_finder = reserve_finder(alloc, own)?;
    generated_over(
        alloc, own, own_rows, clusters, views, rows, own_choice, choices, own_finder, finders,
        stations, budget, watch,
    )
}

// The same with the cheapest way for each chip.
fn generated_cheaply<'a, T: Watch>(
    alloc: Global,
    own: &'a View<'a>,
    own_rows: &ChipRows<'a>,
    clusters: &'a [Cluster],
    views: &'a [View<'a>],
    rows: &[ChipRows<'a>],
    stations: Stations,
    budget: u32,
    watch: &mut T,
) -> Result<Generated, NoMemory>
    requires own { core_of own_rows.now.chip ≡ own.now.core }
    requires views { AreEach (λ cluster view. IsViewOf cluster.chip view)
        clusters.now (length clusters.now) views.now }
    requires rows { AreEach (λ cluster one. core_of one.chip ≡ core_of cluster.chip)
        clusters.now (length clusters.now) rows.now }
    requires shorts { All (λ cluster. All (IsLibraryDefect cluster.chip) cluster.shorts) clusters.now }
    requires stand_in { All (StandsInFor own.now.chip) clusters.now }
    requires stations { All (IsStationOf clusters.now) stations }
    requires few { length stations ≤ MOST_PAIRS }
    ensures { IfOk result (IsGoodFor own.now.chip budget clusters.now stations) }
{
    let choices = choices_of(alloc, views)?;
    let own_choice = choice_of(alloc, own)?;
    generated_found(
        alloc, own, own_rows, clusters, views, rows, own_choice, choices, stations, budget, watch,
    )
}

// The same over the views of all chips.
fn generated_with<'a, T: Watch>(
    alloc: Global,
    own: &'a View<'a>,
    clusters: &'a [Cluster],
    views: &'a [View<'a>],
    stations: Stations,
    budget: u32,
    watch: &mut T,
) -> Result<Generated, NoMemory>
    requires views { AreEach (λ cluster view. IsViewOf cluster.chip view)
        clusters.now (length clusters.now) views.now }
    requires shorts { All (λ cluster. All (IsLibraryDefect cluster.chip) cluster.shorts) clusters.now }
    requires stand_in { All (StandsInFor own.now.chip) clusters.now }
    requires stations { All (IsStationOf clusters.now) stations }
    requires few { length stations ≤ MOST_PAIRS }
    ensures { IfOk result (IsGoodFor own.now.chip budget clusters.now stations) }
{
    own.viewed();
    let own_rows = ChipRows::new(alloc, own.chip())?;
    let rows = rows_of(alloc, clusters)?;
    let made = generated_cheaply(
        alloc, own, &own_rows, clusters, views, &rows, stations, budget, watch,
    );
    drop(rows);
    drop(own_rows);
    made
}

// The same over the chip's own view.
fn generated_on<T: Watch>(
    alloc: Global,
    own: &View<'_>,
    clusters: &[Cluster],
    stations: Stations,
    budget: u32,
    watch: &mut T,
) -> Result<Generated, NoMemory>
    requires shorts { All (λ cluster. All (IsLibraryDefect cluster.chip) cluster.shorts) clusters.now }
    requires stand_in { All (StandsInFor own.now.chip) clusters.now }
    requires stations { All (IsStationOf clusters.now) stations }
    requires few { length stations ≤ MOST_PAIRS }
    ensures { IfOk result (IsGoodFor own.now.chip budget clusters.now stations) }
{
    let views = views_of(alloc, clusters)?;
    let made = generated_with(alloc, own, clusters, &views, stations, budget, watch);
    drop(views);
    made
}

/// Searches for pairs that show the shorts in these stations, with at most `budget` branches for each, and
/// credits each pair with all shorts that it detects, of all clusters.
pub(crate) fn generated<T: Watch>(
    alloc: Global,
    chip: &Chip,
    clusters: &[Cluster],
    stations: Stations,
    budget: u32,
    watch: &mut T,
) -> Result<Generated, NoMemory>
    requires shorts { All (λ cluster. All (IsLibraryDefect cluster.chip) cluster.shorts) clusters.now }
    requires stand_in { All (StandsInFor chip.now) clusters.now }
    requires stations { All (IsStationOf clusters.now) stations }
    requires few { length stations ≤ MOST_PAIRS }
    ensures { IfOk result (IsGoodFor chip.now budget clusters.now stations) }
{
    let own = View::new(alloc, chip)?;
    let made = generated_on(alloc, &own, clusters, stations, budget, watch);
    drop(own);
    made
}
