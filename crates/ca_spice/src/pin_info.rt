//! The roles of pins.
ghost use Rattle.std.specs.Prelude.{◌≡◌, ◌≤◌, ◌<◌, length, slice_get, IfOk};
ghost use Rattle.std.specs.List.{list_all};
ghost use Rattle.ca_lex.specs.Reading.{Gives};
ghost use Rattle.ca_lex.specs.code.Reading.{Steps};
ghost use Rattle.ca_spice.specs.code.SpiceFault.{kind_reported};
ghost use Rattle.ca_spice.specs.code.Names.{texts};
ghost use Rattle.ca_spice.specs.PinInfo.{colon_place, is_pin_word, are_pin_words, role_of, with_role};
ghost use Rattle.ca_spice.specs.PinInfo.{role_step, pin_info};

use crate::fault::{Refusal, SpiceKind};
use crate::names::is_name;
use crate::pin::Pin;
use ca_cell::Role;
use ca_names::NameSet;

// The place of the last `:` of a word, or the word's length if it has none.
#[tactic(auto, unfolding(crate::specs::PinInfo::last_colon))]
fn colon_place(word: &[u8]) -> usize
    ensures place { result ≡ colon_place word.now }
    ensures within { result ≤ length word.now }
{
    let mut found = word.len();
    let mut place = 0;
    let mut rest = word;
    'bytes: while let [byte, more @ ..] = rest {
        if *byte == b':' {
            found = place;
        }
        place += 1;
        rest = more;
    }
    found
}

#[tactic(auto, unfolding(crate::specs::PinInfo::is_pin_word))]
fn is_pin_word(word: &[u8]) -> bool
    ensures { result ≡ is_pin_word word.now }
{
    let place = colon_place(word);
    0 < place && place < word.len() && is_name(&word[..place])
}

fn are_pin_words(words: &[&[u8]]) -> bool
    ensures { result ≡ are_pin_words (texts words.now) }
{
    !words.is_empty() && all_pin_words(words)
}

fn all_pin_words(words: &[&[u8]]) -> bool
    ensures { result ≡ list_all is_pin_word (texts words.now) }
{
    let mut rest = words;
    'words: while let [word, more @ ..] = rest {
        if !is_pin_word(word) {
            return false;
        }
        rest = more;
    }
    true
}

#[tactic(auto, unfolding(crate::specs::PinInfo::role_of))]
fn role_of(text: &[u8]) -> Option<Role>
    ensures { result ≡ role_of text.now }
{
    if text == b"I".as_slice() {
        Some(Role::Input)
    } else if text == b"O".as_slice() {
        Some(Role::Output)
    } else if text == b"P".as_slice() {
        Some(Role::Power)
    } else if text == b"G".as_slice() {
        Some(Role::Ground)
    } else {
        None
    }
}

// The pin at the place takes the role, which it doesn't have yet.
fn give_role(pins: &mut Vec<Pin>, place: usize, role: Role) -> Result<(), Refusal>
    ensures read { Steps kind_reported pins.new.items result
        (with_role role pins.old.items place (slice_get pins.old.items place)) }
    ensures count { length pins.new.items ≡ length pins.old.items }
{
    if pins.len() <= place {
        return Err(Refusal::Kind(SpiceKind::BadRole));
    }
    let pin = &mut pins[place];
    if pin.role.is_some() {
        return Err(Refusal::Kind(SpiceKind::BadRole));
    }
    pin.role = Some(role);
    Ok(())
}

// Gives a pin the role that a word names.
#[tactic(auto, unfolding(crate::specs::PinInfo::role_step))]
fn take_role(pins: &mut Vec<Pin>, nets: &NameSet, word: &[u8]) -> Result<(), Refusal>
    requires { colon_place word.now < length word.now }
    ensures read { Steps kind_reported pins.new.items result (role_step nets.now word.now pins.old.items) }
    ensures count { length pins.new.items ≡ length pins.old.items }
{
    let place = colon_place(word);
    let Some(role) = role_of(&word[place + 1..]) else {
        return Err(Refusal::Kind(SpiceKind::BadRole));
    };
    let Some(place) = nets.place_of(&word[..place]) else {
        return Err(Refusal::Kind(SpiceKind::BadRole));
    };
    give_role(pins, place as usize, role)
}

/// The pins with the roles that these words name. The pins are the first of the nets.
#[tactic(auto, unfolding(crate::specs::PinInfo::pin_info))]
pub(crate) fn pin_info(
    mut pins: Vec<Pin>,
    nets: &NameSet,
    words: &[&[u8]],
) -> Result<Vec<Pin>, Refusal>
    ensures read { Gives kind_reported (λ pins. pins.items) result
        (pin_info nets.now (texts words.now) pins.items) }
    ensures count { IfOk result (λ given. length given.items ≡ length pins.items) }
{
    if !are_pin_words(words) {
        return Err(Refusal::Kind(SpiceKind::BadCard));
    }
    let mut rest = words;
    'words: while let [word, more @ ..] = rest {
        if let Err(refusal) = take_role(&mut pins, nets, word) {
            return Err(refusal);
        }
        rest = more;
    }
    Ok(pins)
}
