// The digits of a square root. They are the whole number r nearest to the root of N = radicand · 2^52, which is the one with
// (r − 1)·r < N ≤ r·(r + 1): exact integer arithmetic decides them.
ghost use Rattle.std.specs.Prelude.{◌≡◌, Bool, true, false, ℕ, ◌+◌, ◌-◌, ◌*◌, ◌%◌, ◌^◌, ◌≤◌, ◌<◌, ltb};
ghost use Rattle.ieee_square_root.specs.Steps.{RootDigits};

// The weight of the exponent's field: 2^52.
pub const HIDDEN: u64 = 0x10_0000_0000_0000;
// 2^26, at which a root's 53 digits are split.
pub const SPLIT: u64 = 0x400_0000;
// The sign bit: 2^63.
pub const SIGN: u64 = 0x8000_0000_0000_0000;

// The digits of a normal value, the hidden one among them: 53, so that they stand for a number from 2^52 on and below 2^53.
#[derive(Clone, Copy)]
pub struct Significand {
    pub digits: u64,
    pub ghost in_range: { (2 ^ 52 ≤ digits) × (digits < 2 ^ 53) },
}

impl Significand {
    // The significand of the normal value with these bits.
    pub fn from_bits(bits: u64) -> Significand
        ensures { result.digits ≡ 2 ^ 52 + bits % 2 ^ 52 }
    {
        Significand {
            digits: HIDDEN + bits % HIDDEN,
        }
    }
}

// Whether r·(r + 1) is below radicand·2^52, for any radicand. The product is formed in parts of 26 digits, and its whole part after division by 2^52 is
// compared, which loses nothing: radicand is a whole number.
pub fn exceeds(radicand: u64, r: u64) -> bool
    requires { r ≤ 2 ^ 53 }
    ensures { result ≡ ltb (r * (r + 1)) (radicand * 2 ^ 52) }
{
    let a = r / SPLIT;
    let b = r % SPLIT;
    let middle = 2 * a * b + (b * b + r) / SPLIT;
    a * a + middle / SPLIT < radicand
}

// Whether r is the whole number nearest to the root of radicand·2^52, for any radicand.
pub fn is_root(radicand: u64, r: u64) -> bool
    requires { (0 < r) × (r ≤ 2 ^ 53) }
    ensures { result ≡ true → RootDigits radicand r }
{
    !exceeds(radicand, r) && exceeds(radicand, r - 1)
}

// A significand, or twice one: what the root is taken of once the exponent is even.
#[derive(Clone, Copy)]
pub struct Radicand {
    pub digits: u64,
    pub ghost in_range: { (2 ^ 52 ≤ digits) × (digits < 2 ^ 54) },
}

impl Radicand {
    // The digits of the root of digits·2^52, from a guess: the guess, a neighbour of it, or found without it.
    pub fn settled(self, guess: Significand) -> u64
        ensures { RootDigits self.digits result }
    {
        if is_root(self.digits, guess.digits) {
            return guess.digits;
        }
        if is_root(self.digits, guess.digits + 1) {
            return guess.digits + 1;
        }
        if is_root(self.digits, guess.digits - 1) {
            return guess.digits - 1;
        }
        self.bisected()
    }

    // The digits of the root of digits·2^52, by halving an interval: for a guess that is far off.
    pub fn bisected(self) -> u64
        ensures { RootDigits self.digits result }
    {
        let mut low = HIDDEN - 1;
        let mut high = 2 * HIDDEN;
        // The library halves slices alone (`partition_point`), and these are numbers.
        while 1 < high - low {
            let middle = (low + high) / 2;
            if exceeds(self.digits, middle) {
                low = middle;
            } else {
                high = middle;
            }
        }
        high
    }
}
