//! How many defects of a chip have which verdict.

ghost use Rattle.std.specs.Prelude.{◌≡◌, ◌≤◌, cond, IfOk, OnOk};
ghost use Rattle.ca_chip_report.specs.Summary.{is_kind, count_of, summary_of, with_count, summary_line};

use ca_base::NoMemory;
use ca_credit::{Verdict, Verdicts};
use ca_lex::Text;
use itoa::Buffer;
use std::alloc::Global;

// A kind of verdict.
#[derive(Clone, Copy)]
enum Kind {
    Credited,
    Unexposable,
    Untestable,
    Aborted,
}

/// How many defects there are, how many of them have each verdict, and how many pairs are listed.
#[derive(Clone, Copy, Debug, PartialEq, Eq)]
pub struct Summary {
    pub defects: usize,
    pub credited: usize,
    pub unexposable: usize,
    pub untestable: usize,
    pub aborted: usize,
    pub pairs: usize,
}

// Whether a verdict is of a kind.
fn is_kind(verdict: &Verdict, kind: Kind) -> bool
    ensures { result ≡ is_kind kind verdict.now }
{
    match (kind, verdict) {
        (Kind::Credited, Verdict::Credited { .. }) => true,
        (Kind::Unexposable, Verdict::Unexposable) => true,
        (Kind::Untestable, Verdict::Untestable) => true,
        (Kind::Aborted, Verdict::Aborted { .. }) => true,
        _ => false,
    }
}

/// One where the test is passed, and else none.
pub fn one_if(passed: bool) -> usize
    ensures is { result ≡ cond passed 1 0 }
    ensures few { result ≤ 1 }
{
    if passed { 1 } else { 0 }
}

// The number of verdicts of a kind.
fn count_of(verdicts: &Verdicts, kind: Kind) -> usize
    ensures { result ≡ count_of kind verdicts.now }
{
    let mut count = 0;
    for k in 0..verdicts.len() {
        count += one_if(is_kind(verdicts.get(k), kind));
    }
    count
}

/// The summary of a chip's verdicts and of `pairs` pairs. It looks at each verdict once for each of the four
/// kinds.
pub fn summary_of(verdicts: &Verdicts, pairs: usize) -> Summary
    ensures { result ≡ summary_of verdicts.now pairs }
{
    Summary {
        defects: verdicts.len(),
        credited: count_of(verdicts, Kind::Credited),
        unexposable: count_of(verdicts, Kind::Unexposable),
        untestable: count_of(verdicts, Kind::Untestable),
        aborted: count_of(verdicts, Kind::Aborted),
        pairs,
    }
}

/// Appends a label and a number's digits.
pub fn add_count(text: &mut Text, label: &[u8], count: usize) -> Result<(), NoMemory>
    ensures { OnOk result (text.new ≡ with_count text.old label.now count) }
{
    text.append(label)?;
    text.append(Buffer::new().format(count).as_bytes())
}

/// The line of a summary.
pub fn summary_line(alloc: Global, summary: &Summary) -> Result<Text, NoMemory>
    ensures { IfOk result (λ text. text ≡ summary_line summary.now) }
{
    let mut text = Text::new(alloc);
    add_count(&mut text, b"defects ", summary.defects)?;
    add_count(&mut text, b", credited ", summary.credited)?;
    add_count(&mut text, b", unexposable ", summary.unexposable)?;
    add_count(&mut text, b", untestable ", summary.untestable)?;
    add_count(&mut text, b", aborted ", summary.aborted)?;
    add_count(&mut text, b", pairs ", summary.pairs)?;
    text.append(b"\n")?;
    Ok(text)
}
