// Histories in fixed arrays: a count, and the latest values in the first places, oldest first.
// specs/ has what they mean, and proofs/ their laws, beside those of loops over lists that other crates cite.
#![tactic(auto)]

ghost use Rattle.std.specs.Prelude.{◌≡◌, min, [], ◌∷◌, length};
ghost use Rattle.sequence.specs.History.{slid, held, count_after, places_after};
ghost use Rattle.sequence.specs.Latest.{no_values, keep_of, push_of};

// The latest N values, oldest first, and blanks in the places after them. A count above N counts as N. It is a count beside an array, and no Vec: there is
// no heap, and the count and each of the N places are words of an image, each with a rule of the specification's.
#[derive(Clone, Copy)]
pub struct Latest<T, const N: usize> {
    pub count: usize,
    pub list: [T; N],
}

// Every value one place down, and x in the last place.
pub fn slide<T: Copy>(v: &mut [T], x: T)
    ensures { v.new ≡ slid v.old x }
{
    let n = v.len();
    if n == 0 {
        return;
    }
    v.copy_within(1.., 0);
    v[n - 1] = x;
}

// One value more: in the next place, or, where none is free, in the last, and the oldest goes. Answers the new count. `slide` stands beside
// `Latest::keep`, of which it is the case of one value, since a must-fail edit is made in it; this is what calls it.
pub fn push<T: Copy>(v: &mut [T], count: usize, x: T) -> usize
    ensures { (result ≡ count_after (length v.old) count 1)
        × (v.new ≡ places_after count v.old (x ∷ [])) }
{
    let n = v.len();
    if count < n {
        v[count] = x;
        return count + 1;
    }
    slide(v, x);
    n
}

impl<T: Copy, const N: usize> Latest<T, N> {
    // No value yet: `blank` in each place.
    pub fn new(blank: T) -> Self
        ensures { result ≡ no_values N blank }
    {
        Self {
            count: 0,
            list: [blank; N],
        }
    }

    // The values xs more, oldest first; where there is no room, the oldest go.
    pub fn keep(self, xs: &[T]) -> Self
        ensures { result ≡ keep_of self xs.now }
    {
        let new = &xs[xs.len().saturating_sub(N)..];
        let held = self.count.min(N);
        let gone = new.len().saturating_sub(N - held);
        let left = held - gone;
        let count = left + new.len();
        let mut list = self.list;
        let places = &mut list[..];
        places.copy_within(gone..held, 0);
        places[left..count].copy_from_slice(new);
        Self { count, list }
    }

    // One value more; where N are held, the oldest goes.
    pub fn push(self, x: T) -> Self
        ensures { result ≡ push_of self x }
    {
        let mut list = self.list;
        let count = push(&mut list, self.count, x);
        Self { count, list }
    }

    // The values that are held.
    pub fn held(&self) -> &[T]
        ensures values { result.now ≡ held self.now.count self.now.list }
        ensures size { length result.now ≡ min self.now.count N }
    {
        &self.list[..self.count.min(N)]
    }
}
