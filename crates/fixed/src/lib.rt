// Reads the repository's fixed lists of cases and answers (oracle/README.md, "The fixed list"): little-endian numbers, from front to
// back. Past the end every number is 0. Each program replays its list in a loop of its own: what it reads and what it tells differ.
#![tactic(auto)]

ghost use Rattle.std.specs.Prelude.{◌≡◌, ◌*◌, ◌<◌, ◌↔◌, ℕ, List, IsTrue, take, drop, length, slice_index_or, true, min, ◌^◌};
ghost use Rattle.std.specs.List.{AllWithin};
ghost use Rattle.fixed.specs.Front.{front_32, front_64};

// A number of the list: how many bytes it takes, and what they say.
pub trait Number: Copy {
    ghost SIZE: { ℕ };

    const SIZE: usize;

    // the number that stands at the front of some bytes
    ghost at_front: { List ℕ → Self };

    fn front(bytes: &[u8]) -> Self
        ensures { result ≡ at_front bytes.now };
}

impl Number for u32 {
    ghost SIZE = { 4 };

    const SIZE: usize = 4;

    ghost at_front = { front_32 };

    fn front(bytes: &[u8]) -> u32 {
        match bytes.first_chunk() {
            Some(chunk) => u32::from_le_bytes(*chunk),
            None => 0,
        }
    }
}

impl Number for u64 {
    ghost SIZE = { 8 };

    const SIZE: usize = 8;

    ghost at_front = { front_64 };

    fn front(bytes: &[u8]) -> u64 {
        let low = u32::front(bytes);
        let high = u32::front(&bytes[bytes.len().min(4)..]);
        u64::from(low) + (u64::from(high) << 32)
    }
}

// What is still to be read.
#[derive(Drop)]
pub struct Reader<'a> {
    pub rest: &'a [u8],
}

impl<'a> Reader<'a> {
    // So many bytes, as far as there are.
    pub fn bytes(&mut self, count: usize) -> &'a [u8]
        ensures front { result.now ≡ take count self.old.rest.now }
        ensures rest { self.new.rest.now ≡ drop count self.old.rest.now }
    {
        let (front, rest) = self.rest.split_at(count.min(self.rest.len()));
        self.rest = rest;
        front
    }

    pub fn number<T: Number>(&mut self) -> T
        ensures front { result ≡ T.at_front (take T.SIZE self.old.rest.now) }
        ensures rest { self.new.rest.now ≡ drop T.SIZE self.old.rest.now }
    {
        T::front(self.bytes(T::SIZE))
    }

    // A number for each place.
    pub fn column<T: Number>(&mut self, out: &mut [T])
        ensures each { (k : ℕ) (d : T) → k < length out.new → slice_index_or out.new k d ≡ T.at_front (take T.SIZE (drop (T.SIZE * k) self.old.rest.now)) }
        ensures rest { self.new.rest.now ≡ drop (T.SIZE * length out.old) self.old.rest.now }
    {
        for place in out {
            *place = self.number();
        }
    }

    // Whether each place holds the number that stands for it from here on.
    pub fn begins_with<T: Number + PartialEq>(mut self, column: &[T]) -> bool
        ensures { IsTrue result ↔ ((k : ℕ) (d : T) → k < length column.now →
            T.eq (slice_index_or column.now k d) (T.at_front (take T.SIZE (drop (T.SIZE * k) self.entry.rest.now))) ≡ true) }
    {
        for place in column {
            if *place != self.number() {
                return false;
            }
        }
        true
    }

    // Whether a column holds the next numbers, so many as are used, and then one number everywhere.
    pub fn matches<T: Number + PartialEq>(&mut self, column: &[T], used: usize, rest: T) -> bool
        requires { T.SIZE * used < 2 ^ 64 }
        ensures agrees { let n = min used (length column.now) in IsTrue result ↔ (((k : ℕ) (d : T) → k < length (take n column.now) →
            T.eq (slice_index_or (take n column.now) k d) (T.at_front (take T.SIZE (drop (T.SIZE * k) (take (T.SIZE * used) self.old.rest.now)))) ≡ true)
            × AllWithin (λ x. T.eq x rest ≡ true) (drop n column.now) 0 (length (drop n column.now))) }
        ensures rest { self.new.rest.now ≡ drop (T.SIZE * used) self.old.rest.now }
    {
        let listed = Reader {
            rest: self.bytes(T::SIZE * used),
        };
        let (front, back) = column.split_at(used.min(column.len()));
        listed.begins_with(front) && back.iter().all(|place| *place == rest)
    }
}
