//! What the program answers.
ghost use Rattle.std.specs.Prelude.{◌≡◌, map, OnOk, OnErr};
ghost use Rattle.std.specs.String.{string_bytes};
ghost use Rattle.ca_store.specs.Store.{Nothing, Rose, appended, AppendsPart};
ghost use Rattle.ca_fault.specs.FaultLine.{status_of, lines_of};
ghost use Rattle.ca_flow.specs.Answer.{ReportsLines, Reports, Answers};

use crate::top::run;
use ca_fault::Fault;
use ca_generate::Watch;
use ca_store::{Failed, Sink, Store};
use std::alloc::Global;

/// Does one command, whose words come without the program's name, and prints the line of its fault on `err`,
/// if there is one. The answer is the exit status. The watch is notified how far test generation is.
pub fn answer<S: Store, W: Sink, E: Sink, T: Watch>(
    alloc: Global,
    words: &[String],
    store: &mut S,
    out: &mut W,
    err: &mut E,
    watch: &mut T,
) -> u8
    requires closed { S.opened store.old ≡ Nothing }

    ensures answers { Answers (map string_bytes words.now)
        (record {
          files = S.files store.old;
          store_faults = S.faults store.old;
          sink_faults = W.faults out.old;
          bytes = W.bytes out.old;
        })
        (record {
          files = S.files store.new;
          store_faults = S.faults store.new;
          sink_faults = W.faults out.new;
          bytes = W.bytes out.new;
        })
        (record { bytes = E.bytes err.old; faults = E.faults err.old })
        (record { bytes = E.bytes err.new; faults = E.faults err.new })
        result }
    ensures closed { S.opened store.new ≡ Nothing }
{
    let end = run(alloc, words, store, out, watch);
    tell_end(&end.fault, err);
    let status = end.status;
    end.discard();
    status
}

// Prints the line of a fault, if there is one.
fn tell_end<E: Sink>(fault: &Option<Fault>, err: &mut E)
    ensures { Reports fault.now
        (record { bytes = E.bytes err.old; faults = E.faults err.old })
        (record { bytes = E.bytes err.new; faults = E.faults err.new }) }
{
    let Some(fault) = fault else {
        return;
    };
    let _status = tell(fault, err);
}

/// Prints the line of a fault, and a second one with the names of what it carries, if it carries any; and
/// answers its exit status. Where the output fails the status alone reports the
/// fault.
pub fn tell<E: Sink>(fault: &Fault, err: &mut E) -> u8
    ensures status { result ≡ status_of fault.now }
    ensures reports { ReportsLines fault.now
        (record { bytes = E.bytes err.old; faults = E.faults err.old })
        (record { bytes = E.bytes err.new; faults = E.faults err.new }) }
{
    let _printed = print_lines(fault, err);
    fault.status()
}

// Appends the line of a fault, and the one with the names of what it carries. After `Failed` some of their
// first bytes were appended.
#[tactic(auto, using(crate::proofs::LineLemmas::both_lines, crate::proofs::LineLemmas::rose_later))]
fn print_lines<E: Sink>(fault: &Fault, err: &mut E) -> Result<(), Failed>
    ensures ok { OnOk result (E.bytes err.new ≡ appended (lines_of fault.now) (E.bytes err.old)) }
    ensures err { OnErr result
        (AppendsPart (lines_of fault.now) (E.bytes err.old) (E.bytes err.new)) }
    ensures cause { OnErr result (Rose (E.faults err.old) (E.faults err.new)) }
{
    fault.print(err)?;
    fault.print_place(err)
}
