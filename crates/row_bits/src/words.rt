// The bits of words, 64 places a word, the lowest bit first.
ghost use Rattle.std.specs.Prelude.{◌≡◌, ◌≢◌, ◌<◌, ◌≤◌, ◌+◌, ◌-◌, ◌*◌, ◌^◌, ◌&&◌, ◌||◌, ℕ, true, false, IfSome, IfNone, length, count_by};
ghost use Rattle.std.specs.Int.{bit_at};
ghost use Rattle.row_bits.specs.Bits.{is_set, bits_of};

/// Whether the bit of a place of the words is set. It takes no memory. Source: this project's own.
#[tactic(auto, unfolding(crate::specs::Bits::is_set))]
pub fn is_set(words: &[u64], place: usize) -> bool
    requires { place < length words.now * 64 }
    ensures { result ≡ is_set words.now place }
{
    (words[place / 64] >> (place % 64)) & 1 == 1
}

/// The least set place that isn't below this one; None where there is none. It takes no memory. Source: this project's own.
pub fn next_set(words: &[u64], from: usize) -> Option<usize>
    requires { length words.now < 2 ^ 32 }
    ensures place { IfSome result (λ place. (from ≤ place) × (place < length words.now * 64) × (is_set words.now place ≡ true)) }
    ensures least { IfSome result (λ place. (k : ℕ) → from ≤ k → k < place → is_set words.now k ≡ false) }
    ensures none { IfNone result ((k : ℕ) → from ≤ k → is_set words.now k ≡ false) }
{
    for at in from / 64..words.len() {
        if let Some(bit) = next_in(words[at], from.saturating_sub(at * 64) as u32) {
            return Some(at * 64 + bit as usize);
        }
    }
    None
}

/// The least place, this one or above, that isn't set; the place behind the last word counts as not set. It takes no
/// memory. Source: this project's own.
pub fn next_clear(words: &[u64], from: usize) -> usize
    requires few { length words.now < 2 ^ 32 }
    requires within { from ≤ length words.now * 64 }
    ensures place { (from ≤ result) × (result ≤ length words.now * 64) × (is_set words.now result ≡ false) }
    ensures least { (k : ℕ) → from ≤ k → k < result → is_set words.now k ≡ true }
{
    for at in from / 64..words.len() {
        if let Some(bit) = next_in(!words[at], from.saturating_sub(at * 64) as u32) {
            return at * 64 + bit as usize;
        }
    }
    words.len() * 64
}

/// Sets the bits of the places from one up to, but without, another. It takes no memory. Source: this project's own.
pub fn fill(words: &mut [u64], low: usize, high: usize)
    requires { high ≤ length words.old * 64 }
    ensures inside { (k : ℕ) → low ≤ k → k < high → is_set words.new k ≡ true }
    ensures below { (k : ℕ) → k < low → is_set words.new k ≡ is_set words.old k }
    ensures above { (k : ℕ) → high ≤ k → is_set words.new k ≡ is_set words.old k }
{
    if low < high {
        for at in low / 64..(high - 1) / 64 + 1 {
            words[at] |= mask(low.saturating_sub(at * 64), (high - at * 64).min(64));
        }
    }
}

/// Sets the bit of a place, or clears it. It takes no memory. Source: this project's own.
pub fn put(words: &mut [u64], place: usize, value: bool)
    requires { place < length words.old * 64 }
    ensures here { is_set words.new place ≡ value }
    ensures others { (k : ℕ) → k ≢ place → is_set words.new k ≡ is_set words.old k }
{
    let others = words[place / 64] & !(1 << (place % 64));
    words[place / 64] = others | u64::from(value) << (place % 64);
}

/// Keeps the places that are set in both, of one length. It takes no memory. Source: this project's own.
pub fn and_with(words: &mut [u64], other: &[u64])
    requires { length other.now ≡ length words.old }
    ensures { (k : ℕ) → is_set words.new k ≡ (is_set words.old k && is_set other.now k) }
{
    for at in 0..words.len() {
        words[at] &= other[at];
    }
}

/// Adds the places that are set in the other, as far as both go. It takes no memory. Source: this project's own.
pub fn or_with(words: &mut [u64], other: &[u64])
    ensures { (k : ℕ) → k < length words.old * 64 → is_set words.new k ≡ (is_set words.old k || is_set other.now k) }
{
    for at in 0..words.len().min(other.len()) {
        words[at] |= other[at];
    }
}

/// How many places are set. It takes no memory. Source: this project's own.
pub fn count_set(words: &[u64]) -> usize
    requires { length words.now < 2 ^ 32 }
    ensures { result ≡ count_by (λ b. b) (bits_of (length words.now * 64) words.now) }
{
    let mut count = 0;
    for word in words {
        count += word.count_ones() as usize;
    }
    count
}

// The least bit of a word, from one on, that is set.
fn next_in(word: u64, low: u32) -> Option<u32>
    requires { low < 64 }
    ensures place { IfSome result (λ bit. (low ≤ bit) × (bit < 64) × (bit_at word bit ≡ 1)) }
    ensures least { IfSome result (λ bit. (k : ℕ) → low ≤ k → k < bit → bit_at word k ≡ 0) }
    ensures none { IfNone result ((k : ℕ) → low ≤ k → bit_at word k ≡ 0) }
{
    let above = word & (u64::MAX << low);
    if above == 0 {
        None
    } else {
        Some(above.trailing_zeros())
    }
}

// The word whose bits from one up to, but without, another are set.
#[tactic(auto, using(crate::proofs::BitLemmas::mask_of))]
fn mask(low: usize, high: usize) -> u64
    requires order { low ≤ high }
    requires within { high ≤ 64 }
    ensures { result ≡ 2 ^ high - 2 ^ low }
{
    ones(high) - ones(low)
}

// The word whose lowest bits are set.
#[tactic(auto, using(crate::proofs::BitLemmas::ones_of))]
fn ones(count: usize) -> u64
    requires { count ≤ 64 }
    ensures { result ≡ 2 ^ count - 1 }
{
    if count == 0 {
        0
    } else {
        u64::MAX >> (64 - count)
    }
}
