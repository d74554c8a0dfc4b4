//! The examples of calls, run: a desk that was never opened serves no tables.
ghost use Rattle.std.specs.Prelude.{◌≡◌, true};
ghost use Rattle.cases.specs.CallExamples.{CallExamples};

use desk::{Desk, served};

/// Every worked example of calls comes out as it is written down; a desk that was never opened is asked, too, and serves no tables.
pub fn call_examples_stand() -> bool
    ensures listed { CallExamples }
    ensures asked { result ≡ true }
{
    served(&Desk::closed(), &[], &[], &[], &[]).is_err()
}
