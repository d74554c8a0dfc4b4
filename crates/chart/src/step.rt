//! A call with all that a chart shows of it.
ghost use Rattle.std.specs.Prelude.{◌≡◌};
ghost use Rattle.chart.specs.Decisions.{decided};

use crate::event::Event;
use calls::Call;
use chooser::Chooser;
use content::Content;
use tables::ProposalRow;

/// A call, what it did, and what the chooser decided by it, if anything.
#[derive(Drop)]
pub struct Step<'a, C: Content> {
    pub call: &'a Call<C>,
    pub event: Event,
    pub decision: Option<Decision>,
}

/// What a chooser decided: which proposal follows the configuration of this number.
#[derive(Clone, Copy)]
pub struct Decision {
    pub number: u8,
    pub proposal: u8,
    pub row: ProposalRow,
}

/// The decision under a number, if there is one now, was none before, and its proposal is among the rows.
pub fn decided<S: Chooser>(
    before: Option<u8>,
    chooser: &S,
    number: u8,
    proposals: &[ProposalRow],
) -> Option<Decision>
    ensures { result ≡ decided before (S.decided chooser.now) number proposals.now }
{
    if before.is_some() {
        return None;
    }
    let proposal = chooser.decision(number)?;
    let row = proposals.get(usize::from(proposal)).copied()?;
    Some(Decision {
        number,
        proposal,
        row,
    })
}
