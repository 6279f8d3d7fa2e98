// A list in fixed memory, since nothing here may fail for want of it.
// Required: that there is room, which who pushes or picks knows.
ghost use Rattle.std.specs.Prelude.{◌≡◌, ◌∷◌, ◌++◌, [], List, Option, ℕ, ◌<◌, ◌≤◌, length, take};
ghost use Rattle.graph.specs.inner.Picks.{picks};

use std::marker::Model;

// The first `many` items count. A clause sees these alone.
#[derive(Drop)]
pub struct Items<const N: usize> {
    list: [u16; N],
    many: usize,
}

impl<const N: usize> Model for Items<N> {
    ghost Value = { List ℕ };

    ghost view = { λ l. take l.many l.list };

    ghost invariant = { λ l. l.many ≤ N };
}

impl<const N: usize> Items<N> {
    pub fn new() -> Self
        ensures { result ≡ [] }
    {
        Items {
            list: [0; N],
            many: 0,
        }
    }

    pub fn push(&mut self, item: u16)
        requires { length self.old < N }
        ensures { self.new ≡ self.old ++ item ∷ [] }
    {
        self.list[self.many] = item;
        self.many += 1;
    }

    // What `pick` gives for 0, 1, … up to n − 1, in this order. It may give none.
    pub fn picked<F: Fn(u16) -> Option<u16>>(n: u16, pick: F) -> Self
        requires room { n ≤ N }
        requires callable { (i : ℕ) → i < n → F.pre pick i }
        ensures { (item : ℕ → Option ℕ) → ((i : ℕ) (o : Option ℕ) → i < n → F.post pick i o → o ≡ item i) → result ≡ picks item n }
    {
        let mut list = Items::new();
        for i in 0..n {
            match pick(i) {
                Some(item) => list.push(item),
                None => {}
            }
        }
        list
    }

    pub fn len(&self) -> usize
        ensures { result ≡ length self.now }
    {
        self.many
    }

    pub fn as_slice(&self) -> &[u16]
        ensures { result.now ≡ self.now }
    {
        &self.list[..self.many]
    }
}
