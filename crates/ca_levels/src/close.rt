//! What planes of links lead on.

ghost use Rattle.std.specs.Prelude.{ℕ, ◌≡◌, ◌<◌, ◌≤◌, length};
ghost use Rattle.std.specs.List.{All};
ghost use Rattle.ca_net.specs.Circuit.{NamesWithin};
ghost use Rattle.ca_levels.specs.code.Come.{AreClosed, IsRound, Leads, LeadsNoMore};
ghost use Rattle.ca_levels.specs.code.Come.{RaiseBoth, Raises, RaisesSome};

use ca_net::Device;
use ca_planes::{both, either, except};

// Adds to the lanes of `to` those in which the link leads there from `from` and `to` isn't blocked. Whether
// there were more.
fn lead(link: u64, from: u32, to: u32, blocked: &[u64], reached: &mut [u64]) -> bool
    requires blocked { length blocked.now ≡ length reached.old }
    requires from { from < length reached.old }
    requires to { to < length reached.old }
    ensures { Leads link from to blocked.now reached.old reached.new result }
{
    let old = reached[to as usize];
    let open = except(link, blocked[to as usize]);
    let new = either(old, both(reached[from as usize], open));
    reached[to as usize] = new;
    new != old
}

// The same both ways. Whether there were more lanes at either end.
fn lead_both(
    devices: &[Device],
    links: &[u64],
    blocked: &[u64],
    reached: &mut [u64],
    i: usize,
) -> bool
    requires named { All (NamesWithin (length reached.old)) devices.now }
    requires links { length devices.now ≤ length links.now }
    requires blocked { length blocked.now ≡ length reached.old }
    requires device { i < length devices.now }
    ensures raises { Raises devices.now links.now blocked.now reached.old reached.new result }
    ensures settled { LeadsNoMore devices.now links.now blocked.now reached.old result i }
{
    let device = devices[i];
    let forth = lead(links[i], device.a.0, device.b.0, blocked, reached);
    let back = lead(links[i], device.b.0, device.a.0, blocked, reached);
    forth || back
}

// Goes once over all devices. Whether some node has more lanes.
fn sweep(devices: &[Device], links: &[u64], blocked: &[u64], reached: &mut [u64]) -> bool
    requires named { All (NamesWithin (length reached.old)) devices.now }
    requires links { length devices.now ≤ length links.now }
    requires blocked { length blocked.now ≡ length reached.old }
    ensures raises { Raises devices.now links.now blocked.now reached.old reached.new result }
    ensures settled { (i : ℕ) → i < length devices.now
        → LeadsNoMore devices.now links.now blocked.now reached.old result i }
{
    let mut rose = false;
    for i in 0..devices.len() {
        let here = lead_both(devices, links, blocked, reached, i);
        rose = rose || here;
    }
    rose
}

// The same from the last device to the first.
fn sweep_back(devices: &[Device], links: &[u64], blocked: &[u64], reached: &mut [u64]) -> bool
    requires named { All (NamesWithin (length reached.old)) devices.now }
    requires links { length devices.now ≤ length links.now }
    requires blocked { length blocked.now ≡ length reached.old }
    ensures raises { Raises devices.now links.now blocked.now reached.old reached.new result }
    ensures settled { (i : ℕ) → i < length devices.now
        → LeadsNoMore devices.now links.now blocked.now reached.old result i }
{
    let mut rose = false;
    for done in 0..devices.len() {
        let here = lead_both(devices, links, blocked, reached, devices.len() - 1 - done);
        rose = rose || here;
    }
    rose
}

// Goes over all devices and back, if some node had more lanes. Whether some node still had on the way back.
// Devices in series mostly stand in their order along the series, or against it.
fn round(devices: &[Device], links: &[u64], blocked: &[u64], reached: &mut [u64]) -> bool
    requires named { All (NamesWithin (length reached.old)) devices.now }
    requires links { length devices.now ≤ length links.now }
    requires blocked { length blocked.now ≡ length reached.old }
    ensures { IsRound devices.now links.now blocked.now reached.old reached.new result }
{
    if !sweep(devices, links, blocked, reached) {
        return false;
    }
    sweep_back(devices, links, blocked, reached)
}

/// Adds to the lanes of each node those in which links lead there, through nodes that aren't blocked.
pub(crate) fn close(devices: &[Device], links: &[u64], blocked: &[u64], reached: &mut [u64])
    requires named { All (NamesWithin (length reached.old)) devices.now }
    requires links { length devices.now ≤ length links.now }
    requires blocked { length blocked.now ≡ length reached.old }
    ensures raises { RaisesSome devices.now links.now blocked.now reached.old reached.new }
    ensures closed { AreClosed devices.now links.now blocked.now reached.new }
{
    'sweeps: loop {
        if !round(devices, links, blocked, reached) {
            return;
        }
    }
}

// Goes once over all devices, in two planes of each node at a time. Whether some node has more lanes in one.
fn sweep_pair(
    devices: &[Device],
    links: &[u64],
    blocked: &[u64],
    zeros: &mut [u64],
    ones: &mut [u64],
) -> bool
    requires named { All (NamesWithin (length zeros.old)) devices.now }
    requires links { length devices.now ≤ length links.now }
    requires blocked { length blocked.now ≡ length zeros.old }
    requires ones { length ones.old ≡ length zeros.old }
    ensures { RaiseBoth
        devices.now links.now blocked.now zeros.old zeros.new ones.old ones.new result }
{
    let mut zeros_rose = false;
    let mut ones_rose = false;
    for i in 0..devices.len() {
        let zero = lead_both(devices, links, blocked, zeros, i);
        let one = lead_both(devices, links, blocked, ones, i);
        zeros_rose = zeros_rose || zero;
        ones_rose = ones_rose || one;
    }
    zeros_rose || ones_rose
}

// The same from the last device to the first.
fn sweep_pair_back(
    devices: &[Device],
    links: &[u64],
    blocked: &[u64],
    zeros: &mut [u64],
    ones: &mut [u64],
) -> bool
    requires named { All (NamesWithin (length zeros.old)) devices.now }
    requires links { length devices.now ≤ length links.now }
    requires blocked { length blocked.now ≡ length zeros.old }
    requires ones { length ones.old ≡ length zeros.old }
    ensures { RaiseBoth
        devices.now links.now blocked.now zeros.old zeros.new ones.old ones.new result }
{
    let mut zeros_rose = false;
    let mut ones_rose = false;
    for done in 0..devices.len() {
        let i = devices.len() - 1 - done;
        let zero = lead_both(devices, links, blocked, zeros, i);
        let one = lead_both(devices, links, blocked, ones, i);
        zeros_rose = zeros_rose || zero;
        ones_rose = ones_rose || one;
    }
    ones_rose || zeros_rose
}

// Goes over all devices and back, if some node had more lanes. Whether some node still had on the way back.
fn round_pair(
    devices: &[Device],
    links: &[u64],
    blocked: &[u64],
    zeros: &mut [u64],
    ones: &mut [u64],
) -> bool
    requires named { All (NamesWithin (length zeros.old)) devices.now }
    requires links { length devices.now ≤ length links.now }
    requires blocked { length blocked.now ≡ length zeros.old }
    requires ones { length ones.old ≡ length zeros.old }
    ensures { RaiseBoth
        devices.now links.now blocked.now zeros.old zeros.new ones.old ones.new result }
{
    if !sweep_pair(devices, links, blocked, zeros, ones) {
        return false;
    }
    sweep_pair_back(devices, links, blocked, zeros, ones)
}

/// The same as `close` in two planes of each node at a time.
pub(crate) fn close_pair(
    devices: &[Device],
    links: &[u64],
    blocked: &[u64],
    zeros: &mut [u64],
    ones: &mut [u64],
)
    requires named { All (NamesWithin (length zeros.old)) devices.now }
    requires links { length devices.now ≤ length links.now }
    requires blocked { length blocked.now ≡ length zeros.old }
    requires ones { length ones.old ≡ length zeros.old }
    ensures zeros { RaisesSome devices.now links.now blocked.now zeros.old zeros.new }
    ensures ones { RaisesSome devices.now links.now blocked.now ones.old ones.new }
    ensures zeros_closed { AreClosed devices.now links.now blocked.now zeros.new }
    ensures ones_closed { AreClosed devices.now links.now blocked.now ones.new }
{
    'sweeps: loop {
        if !round_pair(devices, links, blocked, zeros, ones) {
            return;
        }
    }
}
