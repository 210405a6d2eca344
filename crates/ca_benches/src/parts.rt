//! The benches of a list: what one of them is asked, and what all are given.

ghost use Rattle.std.specs.Prelude.{◌≡◌, ◌<◌, ◌↔◌, length, map, slice_index};
ghost use Rattle.std.specs.Prelude.{Some, IsTrue, IsFalse, IfOk};
ghost use Rattle.std.specs.List.{All};
ghost use Rattle.ca_flat.specs.declared.chip_defect.ChipDefect.{ChipDefect};
ghost use Rattle.ca_flat.specs.Pair.{bit_count, IsShown};
ghost use Rattle.ca_code.specs.Filled.{trits_of};
ghost use Rattle.ca_credit.specs.Defects.{IsExposableIn};
ghost use Rattle.ca_credit.specs.Detection.{IsNetEnd, IsAllowedByRows, AreDetectedAlike, IsDecided};
ghost use Rattle.ca_generate.specs.Outcome.{IsSearchEnd};
ghost use Rattle.ca_benches.specs.Benches.{task_at, chip_of_station, IsStationed};
ghost use Rattle.ca_benches.specs.code.Parts.{bits_at, aimed_at, aimed_in_at, IsAimedAt};

use crate::station::Station;
use ca_base::NoMemory;
use ca_credit::ByLasts;
use ca_generate::{Bench, SearchEnd};
use ca_net::Trit;
use ca_pair::Pair;
use std::alloc::Global;

/// Gives all benches the bits of a pair.
pub(crate) fn load_all<B: Bench>(parts: &mut Vec<B>, pair: &Pair)
    requires { All (λ task. length pair.now ≡ bit_count task.chip) (map B.task parts.old.items) }

    ensures tasks { map B.task parts.new.items ≡ map B.task parts.old.items }
    ensures bits { All (λ bits. bits ≡ trits_of pair.now) (map B.bits parts.new.items) }
    ensures aimed { map B.aimed parts.new.items ≡ map B.aimed parts.old.items }
    ensures aimed_in { map B.aimed_in parts.new.items ≡ map B.aimed_in parts.old.items }
{
    for k in 0..parts.len() {
        parts[k].load(pair);
    }
}

/// Whether the bits may detect the defect in a station.
pub(crate) fn may_detect_at<B: Bench>(parts: &Vec<B>, station: Station) -> bool
    requires { IsStationed (map B.task parts.now.items) station }
    ensures undetected { IsFalse result → ¬ (IsShown (chip_of_station (map B.task parts.now.items) station)
        station.defect (bits_at (map B.bits parts.now.items) station.part)) }
    ensures allowed { IsTrue result → IsAllowedByRows (chip_of_station (map B.task parts.now.items) station)
        station.defect (bits_at (map B.bits parts.now.items) station.part) }
{
    parts[station.part].may_detect(station.place)
}

/// Whether the defect in a station can be exposed.
pub(crate) fn is_exposable_at<B: Bench>(parts: &Vec<B>, station: Station) -> bool
    requires { IsStationed (map B.task parts.now.items) station }
    ensures { IsTrue result
        ↔ IsExposableIn (chip_of_station (map B.task parts.now.items) station) station.defect }
{
    parts[station.part].is_exposable(station.place)
}

/// What last values alone say of the defect in a station.
pub(crate) fn lasts_at<B: Bench>(parts: &mut Vec<B>, station: Station) -> ByLasts
    requires { IsStationed (map B.task parts.old.items) station }

    ensures decided { IsDecided (chip_of_station (map B.task parts.old.items) station) station.defect
        (bits_at (map B.bits parts.old.items) station.part) result }
    ensures tasks { map B.task parts.new.items ≡ map B.task parts.old.items }
    ensures bits { map B.bits parts.new.items ≡ map B.bits parts.old.items }
    ensures aimed { map B.aimed parts.new.items ≡ map B.aimed parts.old.items }
    ensures aimed_in { map B.aimed_in parts.new.items ≡ map B.aimed_in parts.old.items }
{
    parts[station.part].by_lasts(station.place)
}

/// Whether the defect in a station gives what that gives at which its bench is aimed.
pub(crate) fn alike_at<B: Bench>(parts: &mut Vec<B>, station: Station) -> bool
    requires { IsStationed (map B.task parts.old.items) station }

    ensures same_chip { IsTrue result → chip_of_station (map B.task parts.old.items) station
        ≡ aimed_in_at (map B.aimed_in parts.old.items) station.part }
    ensures alike { (one : ChipDefect) → aimed_at (map B.aimed parts.old.items) station.part ≡ Some one
        → IsTrue result → AreDetectedAlike (aimed_in_at (map B.aimed_in parts.old.items) station.part)
        one station.defect (bits_at (map B.bits parts.old.items) station.part) }
    ensures tasks { map B.task parts.new.items ≡ map B.task parts.old.items }
    ensures bits { map B.bits parts.new.items ≡ map B.bits parts.old.items }
    ensures aimed { map B.aimed parts.new.items ≡ map B.aimed parts.old.items }
    ensures aimed_in { map B.aimed_in parts.new.items ≡ map B.aimed_in parts.old.items }
{
    parts[station.part].is_alike(station.place)
}

/// Aims at the defect in a station.
pub(crate) fn aim_at<B: Bench>(parts: &mut Vec<B>, station: Station)
    requires { IsStationed (map B.task parts.old.items) station }

    ensures aimed { IsAimedAt (map B.task parts.old.items) (map B.aimed parts.new.items)
        (map B.aimed_in parts.new.items) station }
    ensures tasks { map B.task parts.new.items ≡ map B.task parts.old.items }
    ensures bits { map B.bits parts.new.items ≡ map B.bits parts.old.items }
{
    parts[station.part].aim(station.place);
}

// A bench aims at no defect.
fn rest<B: Bench>(parts: &mut Vec<B>, part: usize)
    requires { part < length parts.old.items }
    ensures tasks { map B.task parts.new.items ≡ map B.task parts.old.items }
    ensures bits { map B.bits parts.new.items ≡ map B.bits parts.old.items }
{
    parts[part].aim_at_none();
}

/// The bench of a number aims at no defect, unless it comes next. At rest it takes over bits in less time.
pub(crate) fn leave<B: Bench>(parts: &mut Vec<B>, last: usize, next: usize)
    ensures tasks { map B.task parts.new.items ≡ map B.task parts.old.items }
    ensures bits { map B.bits parts.new.items ≡ map B.bits parts.old.items }
{
    if last < parts.len() && last != next {
        rest(parts, last);
    }
}

/// What the chip of the defect at which the bench of a station is aimed ends with at an output.
pub(crate) fn faulty_at<B: Bench>(parts: &Vec<B>, station: Station, output: u32) -> Trit
    requires stationed { IsStationed (map B.task parts.now.items) station }
    requires output { output < length (task_at (map B.task parts.now.items) station.part).chip.outputs }
    ensures { IsNetEnd (aimed_in_at (map B.aimed_in parts.now.items) station.part)
        (aimed_at (map B.aimed parts.now.items) station.part)
        (bits_at (map B.bits parts.now.items) station.part)
        (slice_index (task_at (map B.task parts.now.items) station.part).chip.outputs output) result }
{
    parts[station.part].faulty_end(output)
}

/// Searches with a bench.
pub(crate) fn search_at<B: Bench>(
    parts: &mut Vec<B>,
    part: usize,
    alloc: Global,
) -> Result<SearchEnd, NoMemory>
    requires { part < length parts.old.items }

    ensures searched { (defect : ChipDefect) → aimed_at (map B.aimed parts.old.items) part ≡ Some defect
        → IfOk result (IsSearchEnd (aimed_in_at (map B.aimed_in parts.old.items) part)
        (task_at (map B.task parts.old.items) part).budget defect) }
    ensures tasks { map B.task parts.new.items ≡ map B.task parts.old.items }
{
    parts[part].find(alloc)
}
