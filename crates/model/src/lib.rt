// What is promised of the definition of a serving, as contracts: each function's proof is the statement that its contract names.
#![tactic(auto)]

ghost use Rattle.model.specs.Promises.{Accounts, StaysSound, StaysStopped, DoneWith, Recovers, AsAsked, WaitsMeans};
ghost use Rattle.model.specs.Histories.{OverAnyHistory};
ghost use Rattle.model.specs.Meanings.{Found, ServesWhen, CutOff};
ghost use Rattle.model.specs.Example.{ExampleServed, ExampleOrderly};

// Whatever is in memory, servings change what their chains say and no more, and none is served twice.
pub fn accounts()
    ensures { Accounts }
{}

// Servings leave a state that may be served again.
pub fn stays_sound()
    ensures { StaysSound }
{}

// Once stopped nothing changes.
pub fn stays_stopped()
    ensures { StaysStopped }
{}

// With so many servings as wait none waits, or the device has stopped.
pub fn done_with()
    ensures { DoneWith }
{}

// Reset, the device is as new, with its contents kept.
pub fn recovers()
    ensures { Recovers }
{}

// A guest that keeps to the rules is served as by a device that is asked one thing after the other.
pub fn as_asked()
    ensures { AsAsked }
{}

// What waits, with what was served, is what the guest says is available.
pub fn waits_means()
    ensures { WaitsMeans }
{}

// After its chain was served the guest finds the used count, the used entry and the response.
pub fn found()
    ensures { Found }
{}

// The worked example is served as it should be.
pub fn example_served()
    ensures { ExampleServed }
{}

// And its guest keeps to the rules.
pub fn example_orderly()
    ensures { ExampleOrderly }
{}

// The promises hold over any history of guest writes, servings and resets.
pub fn over_any_history()
    ensures { OverAnyHistory }
{}

// When a chain is served, and when the device stops.
pub fn serves_when()
    ensures { ServesWhen }
{}

// A response is cut off at the capacity.
pub fn cut_off()
    ensures { CutOff }
{}
