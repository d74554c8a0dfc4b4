//! The examples of the host's tables, run: how many frames find empty slots in a table of two.
ghost use Rattle.std.specs.Prelude.{◌≡◌, true};
ghost use Rattle.cases.specs.TableExamples.{TableExamples};

use frame::SLOT;
use slots::may_send;

/// Every worked example of the host's tables comes out as it is written down; a table of two empty slots is asked about two frames and three, too.
pub fn table_examples_stand() -> bool
    ensures listed { TableExamples }
    ensures asked { result ≡ true }
{
    let frames = [0; 2 * SLOT];
    may_send(&frames, 2).is_ok() & may_send(&frames, 3).is_err()
}
