//! Netlists whose nets are numbered by hand: whether they may be wired.

ghost use Rattle.std.specs.Prelude.{◌≡◌, ◌<◌, true, IsTrue};
ghost use Rattle.std.specs.List.{All};
ghost use Rattle.ca_linked.specs.Linked.{net_count, input_nets, output_nets};
ghost use Rattle.ca_linked.specs.Drivers.{IsDrafted};
ghost use Rattle.ca_scan_tests.specs.code.Fits.{IsFit};

use ca_linked::{Body, Draft};

// Whether the input pins are on the first nets.
#[tactic(auto, using(crate::proofs::FitLemmas::one_more, crate::proofs::FitLemmas::before_all))]
fn inputs_fit(body: &Body, nets: usize) -> bool
    ensures { result ≡ true → All (λ net. net < nets) (input_nets body.now) }
{
    for pin in 0..body.input_count() {
        if nets <= body.input(pin) as usize {
            return false;
        }
    }
    true
}

// Whether the output pins are on the first nets.
#[tactic(auto, using(crate::proofs::FitLemmas::one_more, crate::proofs::FitLemmas::before_all))]
fn outputs_fit(body: &Body, nets: usize) -> bool
    ensures { result ≡ true → All (λ net. net < nets) (output_nets body.now) }
{
    for pin in 0..body.output_count() {
        if nets <= body.output(pin) as usize {
            return false;
        }
    }
    true
}

// Whether an instance is a scan instance whose pins are on the first nets.
fn part_fits(body: &Body, nets: usize) -> bool
    ensures { result ≡ true → IsFit nets body.now }
{
    if body.is_gate() || body.output_count() > 3 {
        return false;
    }
    if !inputs_fit(body, nets) {
        return false;
    }
    outputs_fit(body, nets)
}

// Whether all instances are so.
#[tactic(auto, using(crate::proofs::FitLemmas::one_more, crate::proofs::FitLemmas::before_all))]
fn parts_fit(draft: &Draft) -> bool
    ensures { result ≡ true → All (λ part. IsFit (net_count draft.now) part.body) draft.now.parts }
{
    for u in 0..draft.parts() {
        if !part_fits(&draft.part(u).body, draft.nets()) {
            return false;
        }
    }
    true
}

// Whether the ports are on the nets.
#[tactic(auto, using(crate::proofs::FitLemmas::one_more, crate::proofs::FitLemmas::before_all))]
fn ports_fit(draft: &Draft) -> bool
    ensures { result ≡ true → All (λ port. port.net < net_count draft.now) draft.now.ports }
{
    for p in 0..draft.ports() {
        if draft.nets() <= draft.port(p).net as usize {
            return false;
        }
    }
    true
}

/// Whether a netlist of scan instances alone, without constants, may be wired.
pub fn is_drafted(draft: &Draft) -> bool
    ensures { result ≡ true → IsDrafted draft.now }
{
    if draft.parts() > 1_000 || draft.ports() > 1_000 || draft.nets() > 1_000 {
        return false;
    }
    if draft.constant_net(false).is_some() || draft.constant_net(true).is_some() {
        return false;
    }
    if !ports_fit(draft) {
        return false;
    }
    parts_fit(draft)
}
