// A count that stays at its last value.
ghost use Rattle.std.specs.Prelude.{◌≡◌, ◌≤◌};
ghost use Rattle.blink_edge.specs.Causes.{next, Rose};

// A count after one more.
#[tactic(auto, using(crate::proofs::CountLemmas::next_rises))]
pub(crate) fn one_more(count: u64) -> u64
    ensures next { result ≡ next count }
    ensures rose { Rose count result }
    ensures later { count ≤ result }
{
    count.saturating_add(1)
}
