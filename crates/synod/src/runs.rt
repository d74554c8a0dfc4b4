//! Runs of a synod, and what holds of every one of them.
ghost use Rattle.std.specs.Prelude.{◌≡◌};
ghost use Rattle.chooser.specs.Runs.{calls_of, answers_of, DecisionsStay};
ghost use Rattle.synod.specs.Synod.{tables_of, decided_in};
ghost use Rattle.synod.specs.Played.{answers_to, after_calls};
ghost use Rattle.synod.specs.Ballots.{OneValue, ValuesStay};

use crate::Synod;
use chooser::Turn;

/// Makes the calls of the turns, as `chooser::play` does, and promises what holds of synods alone.
pub fn play(synod: &mut Synod, turns: &mut [Turn])
    ensures played { tables_of synod.new ≡ after_calls (tables_of synod.old) (calls_of turns.old) }
    ensures answered { answers_of turns.new ≡ answers_to (tables_of synod.old) (calls_of turns.old) }
    ensures same_calls { calls_of turns.new ≡ calls_of turns.old }
    ensures one_value { OneValue turns.new synod.new }
    ensures values_stay { ValuesStay synod.old synod.new }
    ensures decisions_stay { DecisionsStay (decided_in synod.old) (decided_in synod.new) }
{
    chooser::play(synod, turns);
}
