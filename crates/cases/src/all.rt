//! Every worked example, under one sentence.
ghost use Rattle.std.specs.Prelude.{◌≡◌, true};
ghost use Rattle.cases.specs.AllExamples.{AllExamples};

use crate::calls::call_examples_stand;
use crate::choosers::{contested_ballot, first_offer_decided};
use crate::host_tables::table_examples_stand;
use crate::nodes::node_examples_stand;
use crate::{examples_stand, frame_examples_stand};

/// Every worked example comes out as it is written down, and so do those that are run here.
pub fn worked_examples() -> bool
    ensures every_example { AllExamples }
    ensures run { result ≡ true }
{
    let decided = (first_offer_decided() == Some(4)) & (contested_ballot() == Some(9));
    let listed = examples_stand()
        & frame_examples_stand()
        & table_examples_stand()
        & node_examples_stand()
        & call_examples_stand();
    decided & listed
}
