//! A list of defects with its spans: places of defects of one instance, one after another.

ghost use Rattle.std.specs.Prelude.{◌≡◌, ◌<◌, ◌≤◌, length, slice_get, IfOk, IsTrue, Some};
ghost use Rattle.std.specs.List.{All};
ghost use Rattle.ca_flat.specs.Chip.{cell_at};
ghost use Rattle.ca_view.specs.Linked.{IsPlacedDefect, place_in};
ghost use Rattle.ca_view.specs.Places.{cell_number};
ghost use Rattle.ca_sweep.specs.Spans.{AreOfInstance, AreOfCell};
ghost use Rattle.ca_sweep.specs.code.Spans.{AreSpans, AreListed, start_of};
ghost use Rattle.ca_sweep.specs.code.Rows.{AreLists};

use crate::rows::{is_same, lists_of};
use ca_base::{List, NoMemory};
use ca_cell::DefectList;
use ca_flat::ChipDefect;
use ca_view::View;
use std::alloc::Global;
use std::marker::Model;

// The instance of a span's defects, the place past its last one, and whether they are those of the cell in
// their order.
#[derive(Clone, Copy, Debug)]
pub struct Span {
    pub(crate) instance: usize,
    pub(crate) end: usize,
    pub(crate) is_whole: bool,
}

/// A span that was asked for, with its number among those of the list.
#[derive(Clone, Copy, Debug)]
pub struct SpanFound {
    pub number: usize,
    pub instance: usize,
    pub start: usize,
    pub end: usize,
    pub is_whole: bool,
}

/// A list of defects of a chip's library instances, and its spans in order.
#[derive(Drop)]
pub struct DefectSpans<'a> {
    chip: &'a View<'a>,
    list: List<ChipDefect>,
    spans: Vec<Span>,
}

impl<'a> Model for DefectSpans<'a> {
    ghost use Rattle.ca_sweep.specs.Spans.{Spanned};
    ghost use Rattle.ca_sweep.specs.code.Spans.{AreSpans};

    ghost Value = { Spanned };

    ghost view = { λ spans. record { chip = spans.chip.now.core; list = spans.list } };

    ghost invariant = { λ spans. AreSpans spans.chip.now.core spans.list spans.spans.items };
}

impl<'a> DefectSpans<'a> {
    /// The spans of a list of defects.
    pub fn new(alloc: Global, chip: &'a View<'a>, list: List<ChipDefect>) -> Result<Self, NoMemory>
        requires { All (IsPlacedDefect chip.now.core (place_in chip.now.ranks)) list }
        ensures chip { IfOk result (λ spans. spans.chip ≡ chip.now.core) }
        ensures list { IfOk result (λ spans. spans.list ≡ list) }
    {
        let lists = lists_of(alloc, chip)?;
        let spans = spans_of(alloc, chip, &lists, &list)?;
        Ok(DefectSpans { chip, list, spans })
    }

    /// The number of defects.
    pub fn len(&self) -> usize
        ensures { result ≡ length self.now.list }
    {
        self.list.len()
    }

    /// The defect at a place.
    pub fn get(&self, place: usize) -> ChipDefect
        requires { place < length self.now.list }
        ensures { slice_get self.now.list place ≡ Some result }
    {
        self.list.get(place)
    }

    /// The span of a place: all its defects are of its instance, and if it is whole they are the first ones
    /// of the cell, in their order. It is found at once from the number of one that isn't far before it.
    pub fn span_at(&self, place: usize, near: usize) -> SpanFound
        requires { place < length self.now.list }
        ensures within { result.start ≤ place }
        ensures past { place < result.end }
        ensures span { AreOfInstance self.now.list result.start result.end result.instance }
        ensures whole { IsTrue result.is_whole
            → AreOfCell (cell_at self.now.chip result.instance) self.now.list result.start result.end }
    {
        let mut number = start_near(&self.spans, place, near);
        'spans: while self.spans[number].end <= place {
            number += 1;
        }
        let span = self.spans[number];
        SpanFound {
            number,
            instance: span.instance,
            start: start_at(&self.spans, number),
            end: span.end,
            is_whole: span.is_whole,
        }
    }
}

// The number of this span if it begins at or before a place, else that of the first.
fn start_near(spans: &[Span], place: usize, near: usize) -> usize
    requires { 0 < length spans.now }
    ensures within { result < length spans.now }
    ensures before { start_of spans.now result ≤ place }
{
    if near == 0 || near >= spans.len() {
        return 0;
    }
    if spans[near - 1].end <= place {
        near
    } else {
        0
    }
}

// Where the span of this number begins.
fn start_at(spans: &[Span], number: usize) -> usize
    requires { number ≤ length spans.now }
    ensures { result ≡ start_of spans.now number }
{
    if number == 0 {
        return 0;
    }
    spans[number - 1].end
}

// Where the span after these begins.
fn start_after(spans: &[Span]) -> usize
    ensures { result ≡ start_of spans.now (length spans.now) }
{
    start_at(spans, spans.len())
}

// The spans of a list.
fn spans_of(
    alloc: Global,
    chip: &View<'_>,
    lists: &[DefectList],
    list: &List<ChipDefect>,
) -> Result<Vec<Span>, NoMemory>
    requires lists { AreLists chip.now.core (place_in chip.now.ranks) (cell_number chip.now.chip) lists.now }
    requires placed { All (IsPlacedDefect chip.now.core (place_in chip.now.ranks)) list.now }
    ensures { IfOk result (λ spans. AreSpans chip.now.core list.now spans.items) }
{
    let mut spans = Vec::new(alloc);
    for place in 0..list.len() {
        if is_last(list, place) {
            let start = start_after(&spans);
            let span = span_to(chip, lists, list, list.get(place), start, place + 1);
            spans.push(span)?;
        }
    }
    Ok(spans)
}

// The span of a defect's instance, from a place to an end.
fn span_to(
    chip: &View<'_>,
    lists: &[DefectList],
    list: &List<ChipDefect>,
    defect: ChipDefect,
    start: usize,
    end: usize,
) -> Span
    requires lists { AreLists chip.now.core (place_in chip.now.ranks) (cell_number chip.now.chip) lists.now }
    requires placed { IsPlacedDefect chip.now.core (place_in chip.now.ranks) defect }
    requires within { end ≤ length list.now }
    requires start { start ≤ end }
    ensures end { result.end ≡ end }
    ensures instance { result.instance ≡ defect.instance }
    ensures whole { IsTrue result.is_whole
        → AreOfCell (cell_at chip.now.core defect.instance) list.now start end }
{
    chip.linked();
    let u = defect.instance as usize;
    let number = chip.number(u);
    let is_whole = are_listed(&lists[number], list, start, end);
    Span {
        instance: u,
        end,
        is_whole,
    }
}

// Whether the defects from a place to an end are the first ones of a list, in their order.
fn are_listed(cell: &DefectList, list: &List<ChipDefect>, start: usize, end: usize) -> bool
    requires within { end ≤ length list.now }
    requires start { start ≤ end }
    ensures { IsTrue result → AreListed cell.now list.now start end }
{
    for place in start..end {
        let at = place - start;
        if at >= cell.len() || !is_same(cell.get(at), list.get(place).defect) {
            return false;
        }
    }
    true
}

// Whether the next defect of a list is of another instance, or there is none.
fn is_last(list: &List<ChipDefect>, place: usize) -> bool
    requires { place < length list.now }
    ensures alike { IsFalse result → AreAlikeNext list.now place }
    ensures more { IsFalse result → place + 1 < length list.now }
{
    let count = list.len();
    if place + 1 == count {
        return true;
    }
    list.get(place).instance != list.get(place + 1).instance
}

ghost use Rattle.std.specs.Prelude.{IsFalse, ◌+◌};
ghost use Rattle.ca_flat.specs.declared.chip_defect.ChipDefect.{ChipDefect};
ghost use Rattle.ca_sweep.specs.code.Spans.{AreAlikeNext};
