//! The rule of the word, and what each step on it says.
ghost use Rattle.shared_phaser.specs.Rule.{Loads, Exchanges, Watches};

use crate::history::{Call, Setup, View};
use atomic_table::{Join, Play, Split, TableRule};
use std::marker::{Brand, PhantomData};

/// There is one legal history, and the word is that of the phaser after it.
pub struct Law;

impl TableRule<(), View, Setup> for Law {
    ghost use Rattle.shared_phaser.specs.Rule.{IsKept, first_view};

    ghost holds = { IsKept };

    ghost first = { first_view };
}

/// The call that a load or an exchange belongs to. A type has to name it, because the rule of a load gets no operands.
pub trait Asked {
    ghost use Rattle.shared_phaser.specs.declared.history.Call.{Call};

    ghost call: { Call };
}

/// `Brand` stands for any call: a function that passes `Brand` on picks the call in its proof. If none is picked, the call is a
/// look.
impl Asked for Brand {
    ghost use Rattle.shared_phaser.specs.declared.history.Call.TheVariants.{Look};

    ghost call = { Look };
}

/// A load that begins a call, and is the call if nothing changes.
pub struct Load<C> {
    of: PhantomData<C>,
}

impl<C: Asked> Play<(), View> for Load<C> {
    ghost then = { Loads C.call };
}

/// An exchange that makes a call.
pub struct Exchange<C> {
    of: PhantomData<C>,
}

impl<C: Asked> Play<(), View> for Exchange<C> {
    ghost then = { Exchanges C.call };
}

/// A load that sees the history.
pub struct Watch;

impl Play<(), View> for Watch {
    ghost then = { Watches };
}

/// A caller makes another one.
pub struct Halves;

impl Split<View> for Halves {
    ghost use Rattle.shared_phaser.specs.Rule.{giving_view, given_view};

    ghost left = { giving_view };

    ghost right = { given_view };
}

/// A caller takes in another one.
pub struct Both;

impl Join<View> for Both {
    ghost use Rattle.shared_phaser.specs.Rule.{receiving_view, spent_view};

    ghost both = { receiving_view };

    ghost spent = { spent_view };
}
