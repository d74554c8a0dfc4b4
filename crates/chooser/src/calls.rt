//! Calls on a chooser as values, and many of them made one after the other.
ghost use Rattle.std.specs.Prelude.{◌≡◌};
ghost use Rattle.chooser.specs.Runs.{Does, Run, calls_of, DecisionsStay};

use crate::{Chooser, ChooserRefusal};

/// A call on a chooser.
#[derive(Clone, Copy, Debug, PartialEq, Eq)]
pub enum Call {
    /// offer a value under a number
    Offer {
        number: u8,
        value: u8,
    },
    /// a step of work under a number
    Work {
        number: u8,
        step: u8,
        ballot: u8,
        set: u8,
    },
}

/// A call and its answer, none before it is made.
#[derive(Clone, Copy, Debug, PartialEq, Eq)]
pub struct Turn {
    pub call: Call,
    pub answer: Option<Result<(), ChooserRefusal>>,
}

/// Makes one call.
pub fn make_call<S: Chooser>(chooser: &mut S, call: Call) -> Result<(), ChooserRefusal>
    ensures does { Does S.offering S.working chooser.old call result chooser.new }
    ensures decisions_stay { DecisionsStay (S.decided chooser.old) (S.decided chooser.new) }
{
    match call {
        Call::Offer { number, value } => chooser.offer(number, value),
        Call::Work {
            number,
            step,
            ballot,
            set,
        } => chooser.work(number, step, ballot, set),
    }
}

/// Makes the calls of the turns, one after the other, and writes down what each was answered.
pub fn play<S: Chooser>(chooser: &mut S, turns: &mut [Turn])
    ensures run { Run S.offering S.working chooser.old turns.new chooser.new }
    ensures same_calls { calls_of turns.new ≡ calls_of turns.old }
    ensures decisions_stay { DecisionsStay (S.decided chooser.old) (S.decided chooser.new) }
{
    for turn in turns.iter_mut() {
        turn.answer = Some(make_call(chooser, turn.call));
    }
}
