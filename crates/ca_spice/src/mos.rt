//! The words of an M card and of an R card.
ghost use Rattle.std.specs.Prelude.{◌≡◌, ◌≤◌, ◌+◌, ◌^◌, true, option_map, IfSome};
ghost use Rattle.ca_spice.specs.Mos.{is_sign, are_params, count_of, value_of, are_sound, kind_of, wiring_of};
ghost use Rattle.ca_spice.specs.Mos.{length_at, sizes_of};
ghost use Rattle.ca_cell.specs.Devices.{has_gate};
ghost use Rattle.ca_spice.specs.Mos.{ends_of, resistor_sizes};
ghost use Rattle.ca_spice.specs.code.Mos.{AreSizes};
ghost use Rattle.ca_spice.specs.code.Names.{texts};
ghost use Rattle.ca_spice.specs.code.Views.{wiring_seen, sizes_seen};

use crate::names::all_names;
use ca_lex::{Length, read_length};
use ca_net::DeviceKind;

/// What the words of a card say after the device's name.
#[derive(Clone, Copy)]
pub(crate) struct Wiring<'a> {
    pub drain: &'a [u8],
    pub gate: &'a [u8],
    pub source: &'a [u8],
    pub kind: DeviceKind,
    pub params: &'a [&'a [u8]],
}

/// Width and length of a device.
#[derive(Clone, Copy)]
pub(crate) struct Sizes {
    pub width: Length,
    pub length: Length,
}

pub(crate) fn is_sign(word: &[u8]) -> bool
    ensures { result ≡ is_sign word.now }
{
    word == b"=".as_slice()
}

#[tactic(auto, unfolding(crate::specs::Mos::are_params))]
fn are_params(params: &[&[u8]]) -> bool
    ensures { result ≡ are_params (texts params.now) }
{
    let mut rest = params;
    'params: while let [_, sign, _, more @ ..] = rest {
        if !is_sign(sign) {
            return false;
        }
        rest = more;
    }
    rest.is_empty()
}

#[tactic(auto, unfolding(crate::specs::Mos::count_of))]
fn count_of(key: &[u8], params: &[&[u8]]) -> usize
    ensures { result ≡ count_of key.now (texts params.now) }
{
    let mut count = 0;
    let mut rest = params;
    'params: while let [name, _, _, more @ ..] = rest {
        if *name == key {
            count += 1;
        }
        rest = more;
    }
    count
}

#[tactic(auto, unfolding(crate::specs::Mos::value_of))]
fn value_of<'a>(key: &[u8], params: &[&'a [u8]]) -> Option<&'a [u8]>
    ensures { option_map (λ value. value.now) result ≡ value_of key.now (texts params.now) }
{
    let mut rest = params;
    'params: while let [name, _, value, more @ ..] = rest {
        if *name == key {
            return Some(value);
        }
        rest = more;
    }
    None
}

fn are_sound(params: &[&[u8]]) -> bool
    ensures { result ≡ are_sound (texts params.now) }
{
    are_params(params) && count_of(b"W", params) <= 1 && count_of(b"L", params) <= 1
}

#[tactic(auto, unfolding(crate::specs::Mos::kind_of))]
fn kind_of(model: &[u8]) -> Option<DeviceKind>
    ensures kind { result ≡ kind_of model.now }
    ensures gate { IfSome result (λ kind. has_gate kind ≡ true) }
{
    match model {
        [b'N', ..] => Some(DeviceKind::N),
        [b'P', ..] => Some(DeviceKind::P),
        _ => None,
    }
}

/// What the words after the device's name say, if the card has the form of an M card.
#[tactic(auto, unfolding(crate::specs::Mos::wiring_of))]
pub(crate) fn wiring_of<'a>(name: &[u8], words: &'a [&'a [u8]]) -> Option<Wiring<'a>>
    ensures wiring { option_map wiring_seen result ≡ wiring_of name.now (texts words.now) }
    ensures gate { IfSome result (λ wiring. has_gate wiring.kind ≡ true) }
{
    let [drain, gate, source, bulk, model, params @ ..] = words else {
        return None;
    };
    if !all_names(&[name, *drain, *gate, *source, *bulk, *model]) {
        return None;
    }
    if !are_sound(params) {
        return None;
    }
    let kind = kind_of(model)?;
    Some(Wiring {
        drain,
        gate,
        source,
        kind,
        params,
    })
}

/// What the words after the device's name say, if the card has the form of an R card.
#[tactic(auto, unfolding(crate::specs::Mos::ends_of))]
pub(crate) fn ends_of<'a>(name: &[u8], words: &'a [&'a [u8]]) -> Option<Wiring<'a>>
    ensures wiring { option_map wiring_seen result ≡ ends_of name.now (texts words.now) }
    ensures gate { IfSome result (λ wiring. wiring.gate.now ≡ wiring.drain.now) }
{
    let [drain, source, _, ..] = words else {
        return None;
    };
    if !all_names(&[name, *drain, *source]) {
        return None;
    }
    Some(Wiring {
        drain,
        gate: drain,
        source,
        kind: DeviceKind::D,
        params: &words[..0],
    })
}

/// Width and length of a resistor, which mean nothing.
pub(crate) fn resistor_sizes() -> Sizes
    ensures sizes { sizes_seen result ≡ resistor_sizes }
    ensures within { AreSizes result.width.0 result.length.0 }
{
    Sizes {
        width: Length(1),
        length: Length(1),
    }
}

#[tactic(auto, using(crate::proofs::MosLemmas::length_most))]
fn length_at(key: &[u8], params: &[&[u8]]) -> Option<Length>
    ensures value { option_map (λ found. found.0) result ≡ length_at key.now (texts params.now) }
    ensures within { IfSome result (λ found. found.0 ≤ 10 ^ 24) }
{
    read_length(value_of(key, params)?)
}

/// W and L, if both are there and are lengths.
#[tactic(auto, unfolding(crate::specs::Mos::sizes_of))]
pub(crate) fn sizes_of(params: &[&[u8]]) -> Option<Sizes>
    ensures sizes { option_map sizes_seen result ≡ sizes_of (texts params.now) }
    ensures within { IfSome result (λ sizes. AreSizes sizes.width.0 sizes.length.0) }
{
    let width = length_at(b"W", params)?;
    let length = length_at(b"L", params)?;
    Some(Sizes { width, length })
}
