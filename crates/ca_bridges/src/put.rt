//! The verdicts on shorts among those on all bridges.

ghost use Rattle.std.specs.Prelude.{◌≡◌, length, IfOk};
ghost use Rattle.ca_bridges.specs.Numbers.{own_word, word_of, AreNumbers, ArePut};

use ca_base::{List, NoMemory};
use ca_bridge_verdicts::{BridgeVerdict, BridgeVerdicts};
use ca_credit::{Verdict, Verdicts};
use ca_targets::{Target, TargetList};
use std::alloc::Global;

// What is said of a bridge that is no short.
fn own_word(target: Target) -> BridgeVerdict
    ensures { result ≡ own_word target }
{
    match target {
        Target::Port => BridgeVerdict::Port,
        Target::Wide { rule } => BridgeVerdict::Wide { rule },
        Target::OneNode | Target::Short { .. } => BridgeVerdict::Unexposable,
    }
}

// What a verdict on its short says of a bridge.
fn word_of(alloc: Global, verdict: &Verdict) -> Result<BridgeVerdict, NoMemory>
    ensures { IfOk result (λ word. word ≡ word_of verdict.now) }
{
    Ok(match verdict {
        Verdict::Credited { pair, output } => BridgeVerdict::Credited {
            pair: *pair,
            output: *output,
        },
        Verdict::Unexposable => BridgeVerdict::Unexposable,
        Verdict::Untestable => BridgeVerdict::Untestable,
        Verdict::Aborted { code } => BridgeVerdict::Aborted {
            code: code.copy(alloc)?,
        },
    })
}

/// The verdicts on all bridges: those of shorts are the given ones, in order.
pub fn put_verdicts(
    alloc: Global,
    targets: &TargetList,
    numbers: &List<u32>,
    given: &Verdicts,
) -> Result<BridgeVerdicts, NoMemory>
    requires numbers { AreNumbers targets.now (length targets.now) numbers.now }
    requires counted { length given.now ≡ length numbers.now }
    ensures { IfOk result (ArePut targets.now numbers.now given.now) }
{
    let mut words = BridgeVerdicts::new(alloc);
    let mut before = 0;
    for place in 0..targets.len() {
        if before < numbers.len() && numbers.get(before) as usize == place {
            words.push(word_of(alloc, given.get(before))?)?;
            before += 1;
        } else {
            words.push(own_word(targets.get(place)))?;
        }
    }
    Ok(words)
}
