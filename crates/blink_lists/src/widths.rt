// The width of a class of codes.
ghost use Rattle.std.specs.Prelude.{◌≡◌, ◌≤◌, ◌+◌, ◌^◌};
ghost use Rattle.blink_lists.specs.Widths.{width_for};

use crate::MOST_WIDTH;

/// How many codes a width holds, for a width of at most 24 bits. Source: this project's own.
pub fn full_size(width: u8) -> usize
    requires { width ≤ MOST_WIDTH + 1 }
    ensures { result ≡ 2 ^ width }
{
    1 << width
}

/// The least width of at least 1 bit that holds so many codes; 24 where no width of a class does. Source: this project's
/// own.
pub fn width_for(size: usize) -> u8
    ensures least { result ≡ width_for size }
    ensures within { result ≤ MOST_WIDTH + 1 }
    ensures narrow { size ≤ 2 ^ MOST_WIDTH → result ≤ MOST_WIDTH }
{
    for width in 1..MOST_WIDTH + 1 {
        if size <= full_size(width) {
            return width;
        }
    }
    MOST_WIDTH + 1
}
