//! Laws of MACs in parts.
ghost use Rattle.hsm_mac.specs.Laws.{MadeOfAllBlocks, MadeOfJoined, PartsJoin};

/// A MAC in parts is that of the parts joined, however the message was parted.
pub fn parts_join()
    ensures states { PartsJoin }
    ensures blocks { MadeOfAllBlocks }
    ensures joined { MadeOfJoined }
{}
