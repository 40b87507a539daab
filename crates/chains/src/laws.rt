// What chains mean, as contracts: each function's proof is the law that its contract names.
ghost use Rattle.chains.specs.Laws.{ChainMeans, UsableMeans, FlagsMean, FollowsPlainly};

// A good chain is one whose descriptors are linked one to the next, and not too many.
pub fn chain_means()
    ensures { ChainMeans }
{}

// A chain may be served if each part lies in memory, clear of the regions, and the writable ones stand last.
pub fn usable_means()
    ensures { UsableMeans }
{}

// The reads that follow a chain find, over memory as it stands, the chain that stands there.
pub fn follows_plainly()
    ensures { FollowsPlainly }
{}

// What the flags of a descriptor say.
pub fn flags_mean()
    ensures { FlagsMean }
{}
