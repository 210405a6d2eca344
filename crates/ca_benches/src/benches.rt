//! One bench made of several.

ghost use Rattle.std.specs.Prelude.{◌≡◌, length, map};
ghost use Rattle.std.specs.List.{All};
ghost use Rattle.ca_flat.specs.Pair.{bit_count};

use crate::parts::{
    aim_at, alike_at, faulty_at, is_exposable_at, lasts_at, leave, load_all, may_detect_at,
    search_at,
};
use crate::station::{Station, Stations};
use ca_base::NoMemory;
use ca_credit::{ByLasts, Simulator};
use ca_generate::{Bench, SearchEnd};
use ca_net::Trit;
use ca_pair::Pair;
use ca_places::PlaceSet;
use std::alloc::Global;
use std::marker::Model;

/// A bench of a chip, and benches of chips that stand in for it, each for some of the defects of one task.
/// All of them have the same bits: after a search, those of one pair that is always the same. That of the
/// chip itself is for the values of the good chip; its list of defects is no part of the task. Of the others
/// at most the current one aims at a defect.
#[derive(Drop)]
pub struct Benches<B: Bench + Drop> {
    good: B,
    parts: Vec<B>,
    stations: Stations,
    rest: Pair,
    aim: Option<Station>,
    current: usize,
    aims: u64,
}

impl<B: Bench + Drop> Model for Benches<B> {
    ghost use Rattle.std.specs.Prelude.{map};
    ghost use Rattle.ca_benches.specs.Benches.{Joined, chip_of_station, defect_of};
    ghost use Rattle.ca_benches.specs.code.Parts.{aimed_of, aimed_chip};
    ghost use Rattle.ca_benches.specs.code.Benches.{AreBenches};

    ghost Value = { Joined };

    ghost view = { λ benches. record {
      chip = (B.task benches.good).chip;
      chips = map (chip_of_station (map B.task benches.parts.items)) benches.stations;
      defects = map defect_of benches.stations;
      budget = (B.task benches.good).budget;
      bits = B.bits benches.good;
      aimed = aimed_of benches.aim;
      aimed_in = aimed_chip (B.task benches.good).chip (map B.task benches.parts.items) benches.aim;
      aims = benches.aims;
    } };

    ghost invariant = { λ benches. AreBenches (B.task benches.good) (map B.task benches.parts.items)
        benches.stations (B.bits benches.good) benches.rest (map B.bits benches.parts.items)
        benches.aim (map B.aimed benches.parts.items) (map B.aimed_in benches.parts.items) };
}

impl<B: Bench + Drop> Benches<B> {
    ghost use Rattle.ca_benches.specs.Benches.{task_in, task_of, IsPart, IsStationed, IsUnused};

    /// A bench of a chip, benches of chips that stand in for it, for each defect its station among these, and
    /// the pair whose bits all have when nothing was loaded since a search. No defect is aimed at.
    pub fn new(good: B, parts: Vec<B>, stations: Stations, rest: Pair) -> Self
        requires sized { length rest ≡ bit_count (B.task good).chip }
        requires parts { All (IsPart (B.task good)) (map B.task parts.items) }
        requires stations { All (IsStationed (map B.task parts.items)) stations }

        ensures task { task_in result ≡ task_of (B.task good) (map B.task parts.items) stations }
        ensures unused { IsUnused rest result }
    {
        let mut good = good;
        let mut parts = parts;
        good.load(&rest);
        load_all(&mut parts, &rest);
        Benches {
            good,
            parts,
            stations,
            rest,
            aim: None,
            current: 0,
            aims: 0,
        }
    }

    /// How often was aimed at a defect or at none since `new`, up to the type's greatest value.
    pub fn aim_count(&self) -> u64
        ensures { result ≡ self.now.aims }
    {
        self.aims
    }
}

impl<B: Bench + Drop> Simulator for Benches<B> {
    ghost use Rattle.ca_benches.specs.Benches.{task_in};

    ghost task = { λ benches. task_in benches };

    ghost bits = { λ benches. benches.bits };

    ghost aimed = { λ benches. benches.aimed };

    ghost aimed_in = { λ benches. benches.aimed_in };

    ghost aims = { λ benches. benches.aims };

    fn defect_count(&self) -> usize {
        self.stations.len()
    }

    fn output_count(&self) -> u32 {
        self.good.output_count()
    }

    fn load(&mut self, pair: &Pair) {
        self.good.load(pair);
        load_all(&mut self.parts, pair);
    }

    fn next_to_try(&mut self, places: &PlaceSet, from: usize) -> Option<usize> {
        places.next(from)
    }

    fn keep(&mut self, _lane: usize, _pair: &Pair) {}

    fn turn_to(&mut self, _lane: usize) {}

    fn may_detect(&self, place: usize) -> bool {
        may_detect_at(&self.parts, self.stations.get(place))
    }

    fn by_lasts(&mut self, place: usize) -> ByLasts {
        let station = self.stations.get(place);
        lasts_at(&mut self.parts, station)
    }

    fn aim(&mut self, place: usize) {
        let station = self.stations.get(place);
        leave(&mut self.parts, self.current, station.part);
        aim_at(&mut self.parts, station);
        self.aim = Some(station);
        self.current = station.part;
        self.aims = self.aims.saturating_add(1);
    }

    fn shares_instance(&self, place: usize) -> bool {
        match self.aim {
            Some(aim) => self.stations.get(place).defect.instance == aim.defect.instance,
            None => false,
        }
    }

    fn is_alike(&mut self, place: usize) -> bool {
        let station = self.stations.get(place);
        let Some(aim) = self.aim else {
            return false;
        };
        if aim.part != station.part {
            return false;
        }
        alike_at(&mut self.parts, station)
    }

    fn aim_at_none(&mut self) {
        let none = self.parts.len();
        leave(&mut self.parts, self.current, none);
        self.aim = None;
        self.aims = self.aims.saturating_add(1);
    }

    fn good_end(&self, output: u32) -> Trit {
        self.good.good_end(output)
    }

    fn faulty_end(&self, output: u32) -> Trit {
        match self.aim {
            Some(aim) => faulty_at(&self.parts, aim, output),
            None => self.good.good_end(output),
        }
    }
}

impl<B: Bench + Drop> Bench for Benches<B> {
    fn is_exposable(&self, place: usize) -> bool {
        is_exposable_at(&self.parts, self.stations.get(place))
    }

    fn find(&mut self, alloc: Global) -> Result<SearchEnd, NoMemory> {
        let Some(aim) = self.aim else {
            return Ok(SearchEnd::Exhausted);
        };
        let end = search_at(&mut self.parts, aim.part, alloc);
        load_all(&mut self.parts, &self.rest);
        self.good.load(&self.rest);
        self.aim = None;
        self.current = aim.part;
        end
    }
}
