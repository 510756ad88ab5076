// The three laws of the machine, each a theorem over every settings, memory, outlet and list of calls.
// The functions do nothing: what they promise is the theorem.
#![tactic(auto)]

ghost use Rattle.model.specs.Laws.{Serial, RollBack, HeldRead, Observed, Played, TagsServed, Laws};

/// Whenever no core has the token, the record, run one turn at a time from the last clearing, explains memory, cores and sent words.
pub fn serial_holds()
    ensures { Serial }
{}

/// A core that moves answers "rolled back" exactly when it has an open block and another core has written a word that the block had taken.
pub fn roll_back_holds()
    ensures { RollBack }
{}

/// A read answers the word that the one-at-a-time machine has there after the entries present when the hold began.
pub fn held_read_holds()
    ensures { HeldRead }
{}

/// What an observer sees of a call is all that happens to memory and outlet.
pub fn observation_holds()
    ensures { Observed }
{}

/// The engine that the laws speak of is the new engine after its calls.
pub fn played_holds()
    ensures { Played }
{}

/// The lines of a core are at different addresses, and its tags can always be copied, each once.
pub fn tags_can_be_served()
    ensures { TagsServed }
{}

/// All three, at every point of every list of calls.
pub fn laws_hold()
    ensures { Laws }
{}
