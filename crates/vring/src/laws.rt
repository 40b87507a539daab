// What rings and numbers mean, as contracts: each function's proof is the law that its contract names.
ghost use Rattle.vring.specs.Laws.{SizesMean, NumberStays};

// Which sizes a ring may have.
pub fn sizes_mean()
    ensures { SizesMean }
{}

// A number that is written is read again.
pub fn number_stays()
    ensures { NumberStays }
{}
