ghost use Rattle.std.specs.Prelude.{◌≡◌, ◌+◌, ◌<◌, ◌≤◌, List, [], ◌∷◌, ◌++◌, length, take};

use std::marker::Model;

// At most N rows, in order. What stands in the array past the count has no meaning.
#[derive(Drop)]
pub(crate) struct Table<T, const N: usize> {
    rows: [T; N],
    count: usize,
}

impl<T, const N: usize> Model for Table<T, N> {
    ghost Value = { List T };

    ghost view = { λ t. take t.count t.rows };

    ghost invariant = { λ t. t.count ≤ N };
}

impl<T: Copy, const N: usize> Table<T, N> {
    pub(crate) fn new(blank: T) -> Self
        ensures { result ≡ [] }
    {
        Table {
            rows: [blank; N],
            count: 0,
        }
    }

    pub(crate) fn len(&self) -> usize
        ensures is { result ≡ length self.now }
        ensures within { result ≤ N }
    {
        self.count
    }

    // Puts a row last, and answers its number.
    pub(crate) fn push(&mut self, row: T) -> u8
        requires room { length self.old < N }
        requires numbered { N ≤ 256 }
        ensures number { result ≡ length self.old }
        ensures after { self.new ≡ self.old ++ row ∷ [] }
    {
        let number = self.count as u8;
        self.rows[self.count] = row;
        self.count += 1;
        number
    }

    // The rows in their array, and how many there are.
    pub(crate) fn into_parts(self) -> ([T; N], usize)
        ensures rows { take result.1 result.0 ≡ self }
        ensures within { result.1 ≤ N }
    {
        let Table { rows, count } = self;
        (rows, count)
    }
}
