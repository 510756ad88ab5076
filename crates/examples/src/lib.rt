// Worked examples of the formats and of the engine, and runs in which each law says something: theorems shown by computing the definitions.
#![tactic(auto)]

ghost use Rattle.examples.specs.Examples.{Examples};
ghost use Rattle.examples.specs.Packed.{Packed};
ghost use Rattle.examples.specs.Limits.{Limits};
ghost use Rattle.examples.specs.Witnesses.{Witnesses};

/// The examples, together: words and entries packed, programs read or refused; a mean, a fault, two counters, a block
/// that outgrows its line.
pub fn examples_hold()
    ensures packed { Packed }
    ensures examples { Examples }
{}

/// A roll-back, an early commit, a fault with each mark, sent words, and reads between commits.
pub fn witness_runs_hold()
    ensures { Witnesses }
{}

/// What passes at each limit, and what is refused or faults past it.
pub fn limits_hold()
    ensures { Limits }
{}
