//! Laws of the modes.
ghost use Rattle.hsm_modes.specs.Laws.{BlockByBlock, ChainFollows, ChainsJoin, OneClearList, OneSecretList, PartsJoin};

/// Clear blocks have just one list of secret blocks, and secret blocks just one list of clear ones.
pub fn one_list()
    ensures secret { OneSecretList }
    ensures clear { OneClearList }
{}

/// Block by block comes what comes of the whole list, and the chaining value is that of its secret blocks.
pub fn block_by_block()
    ensures blocks { BlockByBlock }
    ensures chain { ChainFollows }
{}

/// Data cut at multiples of 8 bytes, each part with the chaining value after the one before it, becomes what the whole
/// becomes, with the chaining value of the whole.
pub fn parts_join()
    ensures parts { PartsJoin }
    ensures chains { ChainsJoin }
{}
