//! Laws of PIN blocks.
ghost use Rattle.hsm_pinblock.specs.Laws.{HasNoFault, HoldsOnePin, HoldsSomePin, IsPinOfBlock, OnePinOrFault, OpensAgain};

/// A block either has exactly one PIN, with some permitted fill, or has a fault.
pub fn one_pin_or_fault()
    ensures either { OnePinOrFault }
    ensures one { HoldsOnePin }
    ensures no_fault { HasNoFault }
    ensures some { HoldsSomePin }
    ensures pin { IsPinOfBlock }
{}

/// A sealed PIN opens to itself for the same account.
pub fn opens_again()
    ensures { OpensAgain }
{}
