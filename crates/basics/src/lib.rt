// Items written into a slice from the front on, and the lesser of two numbers.
#![tactic(auto)]

ghost use Rattle.std.specs.Prelude.{◌≡◌, [], ◌∷◌, min, ◌+◌, ◌-◌, ◌≤◌, length, take, drop, replicate};
ghost use Rattle.basics.specs.Cursor.{HasRoom, Writes};

// A slice that is written from the front on, and the place where the next item goes.
#[derive(Drop)]
pub struct Cursor<'a, T> {
    pub items: &'a mut [T],
    pub at: usize,
}

impl<'a, T: Copy> Cursor<'a, T> {
    pub fn put(&mut self, item: T)
        requires { HasRoom 1 self.old }
        ensures { Writes (item ∷ []) self.old self.new }
    {
        self.items[self.at] = item;
        self.at += 1;
    }

    pub fn put_all(&mut self, items: &[T])
        requires { HasRoom (length items.now) self.old }
        ensures { Writes items.now self.old self.new }
    {
        let end = self.at + items.len();
        self.items[self.at..end].copy_from_slice(items);
        self.at = end;
    }

    // What is written from a place on.
    pub fn since(&self, from: usize) -> &[T]
        requires { (from ≤ self.now.at) × (self.now.at ≤ length self.now.items.now) }
        ensures { result.now ≡ take (self.now.at - from) (drop from self.now.items.now) }
    {
        &self.items[from..self.at]
    }
}

impl<'a> Cursor<'a, u8> {
    // Puts an octet n times.
    pub fn put_times(&mut self, octet: u8, n: usize)
        requires { HasRoom n self.old }
        ensures { Writes (replicate n octet) self.old self.new }
    {
        let end = self.at + n;
        self.items[self.at..end].fill(octet);
        self.at = end;
    }
}

pub fn min(a: usize, b: usize) -> usize
    ensures { result ≡ min a b }
{
    if a < b { a } else { b }
}
