// The counter of pair steps, which the caller keeps with the dimension. It stops at 999,999, and a larger figure counts as that.
#![tactic(auto)]

ghost use Rattle.std.specs.Prelude.{◌≡◌, ◌+◌};
ghost use Rattle.machine.specs.Counter.{capped};

const MOST: usize = 999999;

// The figure that a counter counts as.
pub fn counted(counter: usize) -> usize
    ensures { result ≡ capped counter }
{
    counter.min(MOST)
}

// The counter after so many more pair steps. No sum wraps.
pub fn added(counter: usize, steps: usize) -> usize
    ensures { result ≡ capped (counter + steps) }
{
    counted(counter.saturating_add(steps))
}
