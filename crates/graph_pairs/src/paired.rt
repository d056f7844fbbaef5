// Two lists of which an entry of each is read at once: as pairs in one slice, in two slices, or one slice that serves for both.
ghost use Rattle.std.specs.Prelude.{◌≡◌, ◌*◌, ◌<◌, ℕ, List, Float, length, slice_index_or};
ghost use Rattle.std.specs.Float.{binary64, nan};
ghost use Rattle.arithmetic.specs.Arithmetic.{ieee};
ghost use Rattle.graph_pairs.specs.Pairs.{firsts, seconds};

// A number for the first of two samples and one for the second: their values at an entry, or their sums over a row.
#[derive(Clone, Copy)]
pub struct Pair {
    pub first: f64,
    pub second: f64,
}

// Two lists with as many places, one for each sample, wherever they lie: what a walk over the pattern of both samples reads.
pub trait Paired: Copy {
    // How many places both lists have, the list for the first sample, and that for the second.
    ghost places: { Self → ℕ };

    ghost firsts_of: { Self → List Float };

    ghost seconds_of: { Self → List Float };

    // The elements at place k.
    fn at(self, k: usize) -> Pair
        requires { k < places self }
        ensures first { result.first ≡ slice_index_or (firsts_of self) k nan }
        ensures second { result.second ≡ slice_index_or (seconds_of self) k nan };
}

// So many pairs, entry after entry: one list and no slice of arrays, since the contracts (`firsts`, `seconds`) speak of pairs in a part of a work slice,
// to which a list of arrays would have to be flattened in each of them.
#[derive(Clone, Copy)]
pub struct Pairs<'a> {
    pub count: usize,
    pub values: &'a [f64],
    pub ghost even: { length values.now ≡ 2 * count },
}

impl<'a> Paired for Pairs<'a> {
    ghost places = { λ p. p.count };

    ghost firsts_of = { λ p. firsts (ieee binary64) p.count p.values.now };

    ghost seconds_of = { λ p. seconds (ieee binary64) p.count p.values.now };

    fn at(self, k: usize) -> Pair {
        Pair {
            first: self.values[2 * k],
            second: self.values[2 * k + 1],
        }
    }
}

// Two lists of one length.
#[derive(Clone, Copy)]
pub struct Lists<'a> {
    pub first: &'a [f64],
    pub second: &'a [f64],
    pub ghost same: { length second.now ≡ length first.now },
}

impl<'a> Paired for Lists<'a> {
    ghost places = { λ l. length l.first.now };

    ghost firsts_of = { λ l. l.first.now };

    ghost seconds_of = { λ l. l.second.now };

    fn at(self, k: usize) -> Pair {
        Pair {
            first: self.first[k],
            second: self.second[k],
        }
    }
}

// One list that serves both samples.
#[derive(Clone, Copy)]
pub struct OneList<'a> {
    pub list: &'a [f64],
}

impl<'a> Paired for OneList<'a> {
    ghost places = { λ s. length s.list.now };

    ghost firsts_of = { λ s. s.list.now };

    ghost seconds_of = { λ s. s.list.now };

    fn at(self, k: usize) -> Pair {
        let x = self.list[k];
        Pair {
            first: x,
            second: x,
        }
    }
}
