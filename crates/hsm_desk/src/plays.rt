//! The desk's rule, and what each step tells. These types are for the proofs alone.
use crate::view::{InSlot, View};
use atomic_table::{Join, Play, Split, TableRule};

/// The rule.
pub struct Turns;

impl TableRule<Option<InSlot>, View, ()> for Turns {
    ghost use Rattle.hsm_desk.specs.Rule.{Ruled, first_view};

    ghost holds = { λ _. Ruled };

    ghost first = { λ _. first_view };
}

// A ticket was drawn.
pub(crate) struct Draw;

impl Play<Option<InSlot>, View> for Draw {
    ghost use Rattle.hsm_desk.specs.Rule.{Draws};

    ghost then = { λ _. Draws };
}

// The turn came, or it did not.
pub(crate) struct Await;

impl Play<Option<InSlot>, View> for Await {
    ghost use Rattle.hsm_desk.specs.Rule.{Awaits};

    ghost then = { λ _. Awaits };
}

// The entry was made, and the turn passed on.
pub(crate) struct Enter;

impl Play<Option<InSlot>, View> for Enter {
    ghost use Rattle.hsm_desk.specs.Rule.{Enters};

    ghost then = { λ _. Enters };
}

// A pass that took in another has seen the whole history.
pub(crate) struct Learn;

impl Play<Option<InSlot>, View> for Learn {
    ghost use Rattle.hsm_desk.specs.Rule.{Learns};

    ghost then = { λ _ m _. Learns m };
}

// How a seat is split, and how two are joined.
pub(crate) struct Kin;

impl Split<View> for Kin {
    ghost use Rattle.hsm_desk.specs.Rule.{left, right};

    ghost left = { left };

    ghost right = { right };
}

impl Join<View> for Kin {
    ghost use Rattle.hsm_desk.specs.Rule.{met, spent};

    ghost both = { met };

    ghost spent = { spent };
}
