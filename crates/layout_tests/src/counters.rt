// Counters.
ghost use Rattle.std.specs.Prelude.{◌≡◌, ◌<◌};

use std::marker::Brand;
use std::sync::ledger;
use std::sync::ledger::Blank;
use std::test::Fail;
use word_pool::{Ledger, Steps, Tally};

// The sum of some numbers; each number that is read is a step.
fn sum_of<L: Ledger>(numbers: &[u64], steps: &mut Steps<L>) -> u64 {
    let mut sum: u64 = 0;
    for number in numbers {
        steps.tick();
        sum = sum.wrapping_add(*number);
    }
    sum
}

fn counted<N: ledger::Ledger>(blank: Blank) -> u64
    requires name { blank.name ≡ N.name }
    requires parts { blank.parts ≡ N.parts }
    requires some { 0 < blank.parts }
{
    let mut steps: Steps<Tally<N>> = Steps::new(Tally::new(blank));
    sum_of(&[3, 4, 5], &mut steps)
}

#[test]
fn work_is_counted(rt: HostRuntime) -> Result<(), Fail> {
    assert_eq!(rt; counted::<Brand>(Blank::new(1)), 12);
    assert_eq!(rt; size_of::<Steps<Tally<Brand>>>(), 0);
    Ok(())
}
