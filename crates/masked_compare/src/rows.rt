// Rows of codes as lanes of a word.
ghost use Rattle.std.specs.Prelude.{◌≡◌, ◌<◌, ◌≤◌, ◌+◌, ◌*◌, ◌^◌, [], length, replicate, take, IsTrue, slice_index_or, slice_set};
ghost use Rattle.masked_compare.specs.Fields.{is_shape, fields_bits, lane_bits, lane_count};
ghost use Rattle.masked_compare.specs.Words.{lane_of, word_of, rows_in, IsClean, IsRow};

use crate::Shape;
use crate::shape::lowest_bits;

impl Shape {
    /// The lane of a row: the first field lowest, each guard bit zero. It takes no memory. Source: after Johnson et al., VLDB
    /// 2008.
    pub fn lane(self, values: &[u32]) -> u64
        requires { IsRow self values.now }
        ensures value { result ≡ lane_of self values.now }
        ensures small { result < 2 ^ lane_bits self }
    {
        let mut lane = 0;
        let mut place = 0;
        let widths = self.widths();
        for at in 0..widths.len() {
            lane += u64::from(values[at]) << place;
            place += u32::from(widths[at]) + 1;
        }
        lane
    }

    /// The word that has the same row in every lane. It takes no memory. Source: after Johnson et al., VLDB 2008.
    pub fn spread(self, values: &[u32]) -> u64
        requires { IsRow self values.now }
        ensures value { result ≡ word_of self (replicate (lane_count self) values.now) }
        ensures clean { IsClean self result }
        ensures codes { rows_in self result ≡ replicate (lane_count self) values.now }
    {
        let ones = lowest_bits(self.bits());
        self.lane(values) * ones
    }

    /// The code of a field of a word. It takes no memory. Source: this project's own.
    pub fn field(self, word: u64, lane: usize, column: usize) -> u32
        requires lane { lane < lane_count self }
        requires column { column < length self }
        ensures code { result ≡ slice_index_or (slice_index_or (rows_in self word) lane []) column 0 }
        ensures small { result < 2 ^ slice_index_or self column 0 }
    {
        let mask = (1 << self.widths()[column]) - 1;
        ((word >> self.place(lane, column)) & mask) as u32
    }

    /// The word with another code at one field; all others stay. It takes no memory. Source: this project's own.
    pub fn set_field(self, word: u64, lane: usize, column: usize, code: u32) -> u64
        requires lane { lane < lane_count self }
        requires column { column < length self }
        requires code { code < 2 ^ slice_index_or self column 0 }
        ensures codes { rows_in self result ≡ slice_set (rows_in self word) lane (slice_set (slice_index_or (rows_in self word) lane []) column code) }
        ensures clean { IsClean self word → IsClean self result }
    {
        let place = self.place(lane, column);
        let old = u64::from(self.field(word, lane, column));
        word - (old << place) + (u64::from(code) << place)
    }

    // The lowest bit of a field.
    fn place(self, lane: usize, column: usize) -> u32
        requires lane { lane < lane_count self }
        requires column { column < length self }
        ensures value { result ≡ lane_bits self * lane + fields_bits (take column self) }
        ensures shape { IsTrue (is_shape self) }
        ensures fits { result + (slice_index_or self column 0 + 1) ≤ 64 }
    {
        let mut place = self.bits() * lane as u32;
        let widths = self.widths();
        for at in 0..column {
            place += u32::from(widths[at]) + 1;
        }
        place
    }
}
