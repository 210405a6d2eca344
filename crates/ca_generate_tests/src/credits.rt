//! What pairs are credited with on chips that were worked out by hand, how often is aimed for it, and what a
//! search gives up with.

ghost use Rattle.std.specs.Prelude.{◌≡◌, ◌<◌, ◌^◌, length, IfSome};
ghost use Rattle.std.specs.List.{All};
ghost use Rattle.ca_flat.specs.Pair.{bit_count};
ghost use Rattle.ca_judge.specs.Attempt.{IsTriedOn};
ghost use Rattle.ca_sweep.specs.Seen.{IsForChip};

use crate::chips::{CREDITED, INV, ONE_BRANCH};
use crate::reported::{summary, verdict};
use crate::worked::linked;
use ca_base::NoMemory;
use ca_choice::CheapestWay;
use ca_credit::{BLOCK, Credits, Simulator};
use ca_engine::{ChipBench, reserve_finder, reserve_laned};
use ca_generate::{Bench, Unwatched, generate};
use ca_guide::LowestUnset;
use ca_judge::{Attempts, ScopedChoice};
use ca_lex::Text;
use ca_linked::Chip;
use ca_pair::{Pair, Pairs};
use ca_rows::{ChipRows, ExposableDefects};
use ca_sweep::FlipFinder;
use ca_view::View;
use std::alloc::Global;
use std::process::Abort;

// A pair of `bits` bits: those of a number, the lowest first.
fn drawn(alloc: Global, number: usize, bits: usize) -> Option<Pair>
    ensures { IfSome result (λ pair. length pair ≡ bits) }
{
    let mut left = number;
    let mut pair = Pair::new(alloc);
    for _ in 0..bits {
        pair.push(left % 2 == 1).ok()?;
        left /= 2;
    }
    Some(pair)
}

// Pairs of `bits` bits, of the multiples of a number, the first of which is given.
fn drawn_pairs(
    alloc: Global,
    first: usize,
    count: usize,
    factor: usize,
    bits: usize,
) -> Option<Pairs>
    ensures bits { IfSome result (All (λ pair. length pair ≡ bits)) }
    ensures count { IfSome result (λ pairs. length pairs ≡ count) }
{
    let mut pairs = Pairs::new(alloc);
    for k in 0..count {
        let number = first.wrapping_add(k).wrapping_mul(factor);
        pairs.push(drawn(alloc, number, bits)?).ok()?;
    }
    Some(pairs)
}

// What is asked of a bench: the credits of pairs, one by one or by two blocks; or without pairs the whole
// work, or its verdict on a defect where each search sets the lowest bit first.
#[derive(Clone, Copy)]
enum Asked {
    Singles,
    Blocks,
    Work,
    Verdict(usize),
}

// Credits pairs by two blocks. Answers how many credits these are.
fn credit_by_blocks<B: Bench>(bench: &mut B, pairs: &[Pair], credits: &mut Credits) -> u32
    requires same { length credits.old ≡ length (B.task bench.old).defects }
    requires few { length (B.task bench.old).defects < 2 ^ 32 }
    requires bits { All (λ pair. length pair ≡ bit_count (B.task bench.old).chip) pairs.now }
    requires numbers { length pairs.now < 2 ^ 32 }
{
    let first = credits.credit_block(bench, pairs, 0);
    if pairs.len() < BLOCK {
        return first;
    }
    first.saturating_add(credits.credit_block(bench, pairs, BLOCK))
}

// Credits pairs one by one.
fn credit_singly<B: Bench>(bench: &mut B, pairs: &[Pair], credits: &mut Credits) -> u32
    requires same { length credits.old ≡ length (B.task bench.old).defects }
    requires few { length (B.task bench.old).defects < 2 ^ 32 }
    requires bits { All (λ pair. length pair ≡ bit_count (B.task bench.old).chip) pairs.now }
    requires numbers { length pairs.now < 2 ^ 32 }
{
    let mut credited = 0u32;
    for number in 0..pairs.len() {
        let more = credits.credit_pair(bench, &pairs[number], number as u32);
        credited = credited.saturating_add(more);
    }
    credited
}

// The credits of pairs as a text, after how many these are.
fn credits_by<B: Bench>(
    alloc: Global,
    bench: &mut B,
    pairs: &[Pair],
    by_blocks: bool,
) -> Option<Text>
    requires few { length (B.task bench.old).defects < 2 ^ 32 }
    requires bits { All (λ pair. length pair ≡ bit_count (B.task bench.old).chip) pairs.now }
    requires numbers { length pairs.now < 2 ^ 32 }
{
    let mut credits = Credits::reserve(alloc, bench.defect_count()).ok()?;
    let credited = if by_blocks {
        credit_by_blocks(bench, pairs, &mut credits)
    } else {
        credit_singly(bench, pairs, &mut credits)
    };
    let text = format!(in alloc; "{credited} {credits:?}").ok()?;
    Text::from_bytes(alloc, text.as_bytes()).ok()
}

// What is generated, summed up.
fn work_by<B: Bench>(alloc: Global, bench: &mut B) -> Option<Text>
    requires { length (B.task bench.old).defects < 2 ^ 32 }
{
    let made = generate(alloc, bench, &mut Unwatched).ok()?;
    summary(alloc, &made).ok()
}

// The verdict on the defect at a place.
fn verdict_by<B: Bench>(alloc: Global, bench: &mut B, place: usize) -> Option<Text>
    requires { length (B.task bench.old).defects < 2 ^ 32 }
{
    let made = generate(alloc, bench, &mut Unwatched).ok()?;
    verdict(alloc, &made, place).ok()
}

// What a bench answers, which has few defects and whose pairs have `bits` bits.
fn answer<B: Bench>(alloc: Global, bench: &mut B, pairs: &[Pair], asked: Asked) -> Option<Text>
    requires bits { All (λ pair. length pair ≡ bit_count (B.task bench.old).chip) pairs.now }
    requires numbers { length pairs.now < 2 ^ 32 }
{
    if bench.defect_count() > u32::MAX as usize {
        return None;
    }
    match asked {
        Asked::Singles => credits_by(alloc, bench, pairs, false),
        Asked::Blocks => credits_by(alloc, bench, pairs, true),
        Asked::Work => work_by(alloc, bench),
        Asked::Verdict(place) => verdict_by(alloc, bench, place),
    }
}

// What is reported about a bench: its answer, how often one aimed, and how often an instance was evaluated.
#[derive(Drop)]
struct Reported {
    text: Option<Text>,
    aims: u64,
    evaluations: u64,
}

// What is reported about a bench of a chip, given its view and its rows. Pairs have `bits` bits. Each value
// is dropped in one place here and below: more places are slow to prove.
fn tell_over<R: ExposableDefects, P: Attempts + Drop, F: FlipFinder + Drop>(
    alloc: Global,
    view: &View<'_>,
    rows: &R,
    choice: P,
    finder: F,
    budget: u32,
    pairs: &[Pair],
    bits: usize,
    asked: Asked,
) -> Result<Reported, NoMemory>
    requires rows { R.chip rows.now ≡ view.now.core }
    requires finder { IsForChip view.now.core view.now.ranks (F.loaded finder) }
    requires choice { IsTriedOn view.now.core view.now.ranks (P.tried choice) }
    requires bits { All (λ pair. length pair ≡ bits) pairs.now }
    requires numbers { length pairs.now < 2 ^ 32 }
{
    view.linked();
    view.viewed();
    if bits != 2 * view.input_count() {
        return Err(NoMemory);
    }
    let mut bench = ChipBench::reserve(alloc, view, rows, choice, finder, budget)?;
    let text = answer(alloc, &mut bench, pairs, asked);
    let reported = Reported {
        text,
        aims: bench.aim_count(),
        evaluations: bench.evaluation_count(),
    };
    drop(bench);
    Ok(reported)
}

// The same with a finder: blocks of pairs are credited with lanes, all else without.
fn tell_found<R: ExposableDefects, P: Attempts + Drop>(
    alloc: Global,
    view: &View<'_>,
    rows: &R,
    choice: P,
    budget: u32,
    pairs: &[Pair],
    bits: usize,
    asked: Asked,
) -> Result<Reported, NoMemory>
    requires rows { R.chip rows.now ≡ view.now.core }
    requires choice { IsTriedOn view.now.core view.now.ranks (P.tried choice) }
    requires bits { All (λ pair. length pair ≡ bits) pairs.now }
    requires numbers { length pairs.now < 2 ^ 32 }
{
    if let Asked::Blocks = asked {
        let finder = reserve_laned(alloc, view)?;
        return tell_over(
            alloc, view, rows, choice, finder, budget, pairs, bits, asked,
        );
    }
    let finder = reserve_finder(alloc, view)?;
    tell_over(
        alloc, view, rows, choice, finder, budget, pairs, bits, asked,
    )
}

// The same with the choice that is asked for.
fn tell_by_choice(
    alloc: Global,
    view: &View<'_>,
    rows: &ChipRows<'_>,
    budget: u32,
    pairs: &[Pair],
    bits: usize,
    asked: Asked,
) -> Result<Reported, NoMemory>
    requires rows { rows.now.chip ≡ view.now.chip }
    requires bits { All (λ pair. length pair ≡ bits) pairs.now }
    requires numbers { length pairs.now < 2 ^ 32 }
{
    view.viewed();
    if let Asked::Verdict(_) = asked {
        let choice = ScopedChoice::reserve(alloc, view, LowestUnset)?;
        return tell_found(alloc, view, rows, choice, budget, pairs, bits, asked);
    }
    let cheapest = CheapestWay::reserve(alloc, view)?;
    let choice = ScopedChoice::reserve(alloc, view, cheapest)?;
    tell_found(alloc, view, rows, choice, budget, pairs, bits, asked)
}

// The same, of which a view is at hand.
fn tell_by_rows(
    alloc: Global,
    view: &View<'_>,
    budget: u32,
    pairs: &[Pair],
    bits: usize,
    asked: Asked,
) -> Result<Reported, NoMemory>
    requires bits { All (λ pair. length pair ≡ bits) pairs.now }
    requires numbers { length pairs.now < 2 ^ 32 }
{
    let rows = ChipRows::new(alloc, view.chip())?;
    let reported = tell_by_choice(alloc, view, &rows, budget, pairs, bits, asked);
    drop(rows);
    reported
}

// The same.
fn tell(
    alloc: Global,
    chip: &Chip,
    budget: u32,
    pairs: &[Pair],
    bits: usize,
    asked: Asked,
) -> Result<Reported, NoMemory>
    requires bits { All (λ pair. length pair ≡ bits) pairs.now }
    requires numbers { length pairs.now < 2 ^ 32 }
{
    let view = View::new(alloc, chip)?;
    let reported = tell_by_rows(alloc, &view, budget, pairs, bits, asked);
    drop(view);
    reported
}

// What is reported about a bench of the chip of a netlist.
fn reported_of(
    rt: &impl Abort,
    alloc: Global,
    netlist: &[u8],
    budget: u32,
    pairs: &[Pair],
    bits: usize,
    asked: Asked,
) -> (Text, u64, u64)
    requires bits { All (λ pair. length pair ≡ bits) pairs.now }
    requires numbers { length pairs.now < 2 ^ 32 }
{
    let chip = linked(alloc, netlist).expect(rt, "a chip");
    let reported = tell(alloc, &chip, budget, pairs, bits, asked).expect(rt, "memory");
    let text = reported.text.expect(rt, "memory");
    (text, reported.aims, reported.evaluations)
}

// Three of the nine defects of an inverter are detected where its input falls, and four are suspect. Last
// values alone say which of these are, so a bench aims at six of them at most.
#[test]
fn a_falling_input_of_an_inverter(rt: HostRuntime) {
    let alloc = rt.alloc();
    let pairs = drawn_pairs(alloc, 1, 1, 1, 2).expect(&rt, "memory");
    let (text, aims, _) = reported_of(&rt, alloc, INV, 0, pairs.as_slice(), 2, Asked::Singles);
    assert!(rt; text.as_bytes().starts_with(b"3 "), "{:?}", text.as_bytes());
    assert!(rt; aims <= 6, "{aims}");
}

// The credits of 257 pairs in two blocks, with lanes, are those of the pairs one by one, without. The bits of
// a pair are those of 37 times its number.
#[test]
fn two_blocks_of_pairs(rt: HostRuntime) {
    let alloc = rt.alloc();
    for (netlist, bits, wanted) in CREDITED {
        let pairs = drawn_pairs(alloc, 0, 257, 37, bits).expect(&rt, "memory");
        let (blocks, _, _) = reported_of(
            &rt,
            alloc,
            netlist,
            0,
            pairs.as_slice(),
            bits,
            Asked::Blocks,
        );
        let (singles, _, _) = reported_of(
            &rt,
            alloc,
            netlist,
            0,
            pairs.as_slice(),
            bits,
            Asked::Singles,
        );
        assert!(rt;
            blocks == singles,
            "{:?} {:?}",
            blocks.as_bytes(),
            singles.as_bytes()
        );
        assert!(rt;
            blocks.as_bytes().starts_with(wanted),
            "{:?}",
            blocks.as_bytes()
        );
    }
}

// What a search gives up with after one branch.
#[test]
fn a_search_of_one_branch(rt: HostRuntime) {
    let (netlist, budget, place, wanted) = ONE_BRANCH;
    let (text, _, _) = reported_of(
        &rt,
        rt.alloc(),
        netlist,
        budget,
        &[],
        6,
        Asked::Verdict(place),
    );
    assert!(rt; text.is(wanted), "{:?}", text.as_bytes());
}

// `count` inverters, each between ports of its own.
fn inverters(alloc: Global, count: usize) -> Option<String> {
    let last = count.checked_sub(1)?;
    let mut text = format!(in alloc;
        "module many(a, z); input [{last}:0] a; output [{last}:0] z;\n"
    ).ok()?;
    for k in 0..count {
        let line = format!(in alloc; "INV u{k} (.A(a[{k}]), .ZN(z[{k}]));\n").ok()?;
        text.push_str(&line).ok()?;
    }
    text.push_str("endmodule").ok()?;
    Some(text)
}

// Without a screen each of 200 pairs would be tried on nearly all of 900 defects. Each pair is aimed at one
// at least, and each of the 600 defects is aimed at or compared with one that is.
#[test]
fn a_hundred_inverters(rt: HostRuntime) {
    let alloc = rt.alloc();
    let netlist = inverters(alloc, 100).expect(&rt, "memory");
    let (text, aims, evaluations) = reported_of(
        &rt,
        alloc,
        netlist.as_bytes(),
        64,
        &[],
        200,
        Asked::Work,
    );
    let wanted =
        b"defects 900, credited 600, unexposable 300, untestable 0, aborted 0, empty 0, pairs 200";
    assert!(rt; text.is(wanted), "{:?}", text.as_bytes());
    assert!(rt; 200 <= aims && aims <= 2_000, "{aims}");
    assert!(rt;
        600 <= evaluations && evaluations <= 400_000,
        "{evaluations}"
    );
}
