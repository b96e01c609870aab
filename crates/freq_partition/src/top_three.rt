// The least three of many values.
ghost use Rattle.std.specs.Prelude.{◌≡◌, ◌≤◌, [], take};
ghost use Rattle.blink_lists.specs.Lists.{put_in_order};
ghost use Rattle.freq_partition.specs.TopThree.{items_in};

// At most three values in rising order: the first `count` of these. The others mean nothing.
#[derive(Clone, Copy)]
pub(crate) struct TopThree<T> {
    pub(crate) count: usize,
    pub(crate) first: T,
    pub(crate) second: T,
    pub(crate) third: T,
}

impl<T: Ord + Copy> TopThree<T> {
    // No values. The filler stands where none are.
    pub(crate) fn none(filler: T) -> Self
        ensures none { items_in result ≡ [] }
        ensures within { result.count ≤ 3 }
    {
        TopThree {
            count: 0,
            first: filler,
            second: filler,
            third: filler,
        }
    }

    // The least three of these and a value more, which stands before its equals.
    pub(crate) fn with(self, new: T) -> Self
        requires { self.count ≤ 3 }
        ensures least { items_in result ≡ take 3 (put_in_order T.cmp new (items_in self)) }
        ensures within { result.count ≤ 3 }
    {
        let count = if self.count < 3 { self.count + 1 } else { 3 };
        if self.count == 0 || new.cmp(&self.first).is_le() {
            TopThree {
                count,
                first: new,
                second: self.first,
                third: self.second,
            }
        } else if self.count == 1 || new.cmp(&self.second).is_le() {
            TopThree {
                count,
                first: self.first,
                second: new,
                third: self.second,
            }
        } else if self.count == 2 || new.cmp(&self.third).is_le() {
            TopThree {
                count,
                first: self.first,
                second: self.second,
                third: new,
            }
        } else {
            self
        }
    }
}
