//! Moments: how many starts and answers there have been.
ghost use Rattle.std.specs.Prelude.{◌≡◌};
ghost use Rattle.tables.specs.Moments.{next_moment};

/// The moment that the next start or answer keeps. After 2^32 - 1, the last, it stays there.
pub fn next_moment(moment: u32) -> u32
    ensures { result ≡ next_moment moment }
{
    moment.saturating_add(1)
}
