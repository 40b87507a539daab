// What scripts mean, as contracts: each function's proof is the law that its contract names.
ghost use Rattle.script.specs.Laws.{RoundTrip, WholeRoundTrip, ReadsSound};
ghost use Rattle.script.specs.Examples.{ExampleRead, ExampleLimits, ExampleRefused};

// A command as its line is read as that command.
pub fn reads_what_it_shows()
    ensures { RoundTrip }
{}

// Commands as a text are read as those commands.
pub fn reads_what_it_writes()
    ensures { WholeRoundTrip }
{}

// Commands that are read have numbers below 2^64, and bytes below 256 that lie in memory.
pub fn reads_sound_commands()
    ensures { ReadsSound }
{}

// Every command is read from a text.
pub fn example_read()
    ensures { ExampleRead }
{}

// What stands at a limit is still read.
pub fn example_limits()
    ensures { ExampleLimits }
{}

// What cannot be read is refused by its first bad line.
pub fn example_refused()
    ensures { ExampleRefused }
{}
