//! Goals: values that nets are to have.

use ca_net::Trit;

/// When a net is to have a value.
#[derive(Clone, Copy, Debug, PartialEq, Eq)]
pub(crate) enum Frame {
    First,
    Last,
    /// first and last, and in between
    Stable,
}

/// A net is to have a value.
#[derive(Clone, Copy, Debug, PartialEq, Eq)]
pub(crate) struct Goal {
    pub(crate) frame: Frame,
    pub(crate) net: u32,
    pub(crate) value: bool,
}

/// The value as one of three.
pub(crate) fn trit_of(value: bool) -> Trit {
    if value { Trit::One } else { Trit::Zero }
}

/// The costliest goal of those offered, and its price.
#[derive(Clone, Copy, Debug)]
pub(crate) struct Costliest {
    goal: Option<Goal>,
    price: u32,
}

impl Costliest {
    /// None was offered.
    pub(crate) fn new() -> Self {
        Costliest {
            goal: None,
            price: 0,
        }
    }

    /// Takes the goal if it is costlier than the others, has a price at all and isn't out of reach.
    pub(crate) fn offer(&mut self, goal: Goal, price: u32) {
        if price > self.price && price < u32::MAX {
            self.goal = Some(goal);
            self.price = price;
        }
    }

    /// The costliest one.
    pub(crate) fn goal(&self) -> Option<Goal> {
        self.goal
    }
}
