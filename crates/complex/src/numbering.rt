// Keys below 4096, numbered in order of first appearance up to a limit.
ghost use Rattle.std.specs.Prelude.{◌≡◌, List, [], ℕ, ◌<◌, ◌≤◌, get_or, length, eqb};
ghost use Rattle.mathematics.specs.Lists.{noted, noted_all};
ghost use Rattle.complex.specs.Numbering.{Numbered};

use numbers::sizes::MOST_TRIANGLES;

// table[k] is one more than the number of key k, and 0 where k is new; keys holds the keys as they were numbered; a count of limit + 1
// says that there were more. Both lists are fixed memory: there is no heap.
#[derive(Clone, Copy)]
pub struct Numbering {
    pub limit: usize,
    pub count: usize,
    pub table: [u16; 4096],
    pub keys: [u16; MOST_TRIANGLES],
    ghost room: { limit ≤ 256 },
}

impl Numbering {
    // No key has a number.
    pub fn new(limit: usize) -> Numbering
        requires { limit ≤ 256 }
        ensures within { result.limit ≡ limit }
        ensures none { Numbered limit result.table result.keys result.count [] }
    {
        Numbering {
            limit,
            count: 0,
            table: [0; 4096],
            keys: [0; MOST_TRIANGLES],
        }
    }

    // One key is noted.
    pub fn note(&mut self, key: u16)
        requires { key < 4096 }
        ensures within { self.new.limit ≡ self.old.limit }
        ensures noted { (l : List ℕ) → Numbered self.old.limit self.old.table self.old.keys self.old.count l → Numbered self.new.limit self.new.table self.new.keys self.new.count (noted eqb l key) }
    {
        let place = usize::from(key);
        if self.limit < self.count || self.table[place] != 0 {
            return;
        }
        if self.count < self.limit {
            self.table[place] = (self.count + 1) as u16;
            self.keys[self.count] = key;
        }
        self.count += 1;
    }

    // All keys of a list are noted.
    pub fn note_all(&mut self, new: &[u16])
        requires { (i : ℕ) → i < length new.now → get_or new.now i 0 < 4096 }
        ensures within { self.new.limit ≡ self.old.limit }
        ensures noted { (l : List ℕ) → Numbered self.old.limit self.old.table self.old.keys self.old.count l → Numbered self.new.limit self.new.table self.new.keys self.new.count (noted_all eqb l new.now) }
    {
        for key in new {
            self.note(*key);
        }
    }
}
