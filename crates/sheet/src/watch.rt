//! Making calls with an eye on what they do: what lay in a slot before, and what the chooser decides.
use calls::{Answer, Call};
use chart::{Decision, Sight, Step, arrow_in, decided, happened};
use chooser::Chooser;
use content::Content;
use fault::Fault;
use floor::Floor;
use frame::SLOT;
use host::HostTables;
use quorum::QuorumRule;
use schedule::make_call;
use std::alloc::{AllocError, Global};

/// What has to be remembered from call to call. A floor does not show its chooser, so a second one is asked the same and tells what was decided: the choosers that a schedule knows decide by what they were asked alone.
#[derive(Drop)]
pub(crate) struct Watch<S: Chooser + Drop> {
    shadow: S,
    /// of each slot, whether the frame in it was delivered
    delivered: Vec<bool>,
}

impl<S: Chooser + Drop> Watch<S> {
    pub(crate) fn new(
        alloc: Global,
        shadow: S,
        tables: &HostTables,
    ) -> Result<Watch<S>, AllocError> {
        let slots = tables.frames.len() / SLOT;
        Ok(Watch {
            shadow,
            delivered: vec![in alloc; false; slots]?,
        })
    }

    /// Makes the call, and tells what it did.
    pub(crate) fn make<'a, C: Content, Q: QuorumRule + Drop>(
        &mut self,
        alloc: Global,
        floor: &mut Floor<C, Q, S>,
        tables: &mut HostTables,
        call: &'a Call<C>,
    ) -> Result<Step<'a, C>, AllocError> {
        let before = Vec::from_slice(alloc, tables.nodes.as_slice())?;
        let slot = slot_of(call);
        let arrow = match slot {
            Some(slot) => arrow_in::<C>(tables.frames.as_slice(), slot),
            None => None,
        };
        let repeat = self.was_delivered(slot);
        let answer = make_call(
            floor,
            tables.nodes.as_mut_slice(),
            tables.operations.as_mut_slice(),
            tables.frames.as_mut_slice(),
            tables.proposals.as_mut_slice(),
            call,
        );
        let rows = tables.operations.as_slice();
        let used = usize::from(floor.desk().operations_used).min(rows.len());
        let sight = Sight {
            arrow,
            repeat,
            before: before.as_slice(),
            after: tables.nodes.as_slice(),
            operations: &rows[..used],
        };
        let event = happened(call, answer, &sight);
        self.remember_delivery(call, answer);
        let decision = self.decision_by(call, answer, tables);
        Ok(Step {
            call,
            event,
            decision,
        })
    }

    fn was_delivered(&self, slot: Option<u16>) -> bool {
        match slot {
            Some(slot) => self
                .delivered
                .get(usize::from(slot))
                .copied()
                .unwrap_or(false),
            None => false,
        }
    }

    // A frame stays in its slot when it is delivered, and is gone when it is lost.
    fn remember_delivery<C: Content>(&mut self, call: &Call<C>, answer: Result<Answer, Fault>) {
        if answer.is_err() {
            return;
        }
        match call {
            Call::Deliver { slot } => self.set_delivered(*slot, true),
            Call::Lose { slot } => self.set_delivered(*slot, false),
            _ => {}
        }
    }

    fn set_delivered(&mut self, slot: u16, delivered: bool) {
        if let Some(mark) = self.delivered.get_mut(usize::from(slot)) {
            *mark = delivered;
        }
    }

    // What the chooser decided by the call, if it took one.
    fn decision_by<C: Content>(
        &mut self,
        call: &Call<C>,
        answer: Result<Answer, Fault>,
        tables: &HostTables,
    ) -> Option<Decision> {
        let asked = chooser_call(call, answer, tables)?;
        let number = match asked {
            chooser::Call::Offer { number, .. } | chooser::Call::Work { number, .. } => number,
        };
        let before = self.shadow.decision(number);
        chooser::make_call(&mut self.shadow, asked).ok()?;
        decided(before, &self.shadow, number, tables.proposals.as_slice())
    }
}

// The slot that a call names.
fn slot_of<C: Content>(call: &Call<C>) -> Option<u16> {
    match call {
        Call::Deliver { slot } | Call::Lose { slot } => Some(*slot),
        _ => None,
    }
}

// What the call asked of the chooser, where the chooser took it.
fn chooser_call<C: Content>(
    call: &Call<C>,
    answer: Result<Answer, Fault>,
    tables: &HostTables,
) -> Option<chooser::Call> {
    let Ok(Answer::Number(told)) = answer else {
        return None;
    };
    match call {
        Call::Propose { operation } => Some(chooser::Call::Offer {
            number: tables.operations.get(usize::from(*operation))?.number,
            value: u8::try_from(told).ok()?,
        }),
        Call::Work {
            number,
            step,
            ballot,
            set,
        } => Some(chooser::Call::Work {
            number: *number,
            step: *step,
            ballot: *ballot,
            set: *set,
        }),
        _ => None,
    }
}
