// What is gathered and written over memory as it stands, as contracts: each function's proof is the law that its contract names.
ghost use Rattle.transfer.specs.Laws.{GathersPlainly, FinishesPlainly};

// What is gathered are the first bytes of the request that stands in memory.
pub fn gathers_plainly()
    ensures { GathersPlainly }
{}

// Memory is left with the response in the chain, the used entry and the used count.
pub fn finishes_plainly()
    ensures { FinishesPlainly }
{}
