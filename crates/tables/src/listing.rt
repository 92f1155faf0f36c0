// Listings: lists that come plane by plane, and the walk that writes one into a table.
ghost use Rattle.std.specs.Prelude.{◌≡◌, ℕ, ◌<◌, ◌≤◌, List, [], ◌∷◌};
ghost use Rattle.tables.specs.Tables.{filled, listed, placed, write_on};

// The most entries of a table that are used.
pub const CAPACITY: usize = 65536;

// A list of entries that comes in parts, one for each plane below a number of planes.
pub trait Listing<E> {
    // the entries of a plane
    ghost part: { Self → ℕ → List E };

    // the number of planes
    ghost parts: { Self → ℕ };

    // what the clauses below take for granted of the value
    ghost ready: { Self → Type 0 };

    fn planes(&self) -> u16
        ensures { result ≡ parts self.now };

    // A later plane, or the number of planes, with no entries in between.
    fn after(&self, plane: u16) -> u16
        ensures bounds { ready self.now → plane < parts self.now → (plane < result) × (result ≤ parts self.now) }
        ensures between { ready self.now → (n : ℕ) → plane < n → n < result → part self.now n ≡ [] };

    // Writes the entries of a plane to the front of the table, and gives their number; none where the
    // table was full before the end.
    fn write_plane(&self, plane: u16, table: &mut [E]) -> Option<usize>
        ensures { ready self.now → record { count = result; table = table.new } ≡ placed (part self.now plane) table.old };
}

// Writes one entry to the front of the table.
pub fn write_one<E: Copy>(entry: E, table: &mut [E]) -> Option<usize>
    ensures { record { count = result; table = table.new } ≡ placed (entry ∷ []) table.old }
{
    let slot = table.first_mut()?;
    *slot = entry;
    Some(1)
}

// Writes all planes to the front of the table, and stops where it is full. (Here and in other walks a
// `while`, since a step goes as far as a skip. A `for` over `successors` was tried: in a generic function
// the check does not state such a loop.)
pub fn write_all<E: Copy, L: Listing<E>>(listing: &L, table: &mut [E]) -> Option<usize>
    ensures { L.ready listing.now → record { count = result; table = table.new } ≡ placed (listed (L.part listing.now) (L.parts listing.now) 0) table.old }
{
    let planes = listing.planes();
    let mut used = 0;
    let mut plane = 0;
    while plane < planes {
        let rest = &mut table[used..];
        let room = rest.len();
        used += listing.write_plane(plane, rest)?.min(room);
        plane = listing.after(plane).max(plane + 1);
    }
    Some(used)
}

// Writes the listing to the front of the table, and gives its length; none where it is longer than
// the capacity, and the table then begins with as much of it as the capacity takes.
pub fn fill<E: Copy, L: Listing<E>>(listing: &L, table: &mut [E]) -> Option<usize>
    ensures { L.ready listing.now → record { count = result; table = table.new } ≡ filled (listed (L.part listing.now) (L.parts listing.now) 0) table.old }
{
    let capacity = table.len().min(CAPACITY);
    write_all(listing, &mut table[..capacity])
}

// Writes one entry behind the `used` first ones, and gives how many are then in use; none where the table
// is full.
pub fn write_one_behind<E: Copy>(entry: E, table: &mut [E], used: usize) -> Option<usize>
    ensures { record { count = result; table = table.new } ≡ write_on used (entry ∷ []) table.old }
{
    if used < table.len() {
        table[used] = entry;
        Some(used + 1)
    } else {
        None
    }
}

// Writes the entries of a plane behind the `used` first ones, and gives how many are then in use; none where
// the table was full before the end.
pub fn write_plane_behind<E: Copy, L: Listing<E>>(
    listing: &L,
    plane: u16,
    table: &mut [E],
    used: usize,
) -> Option<usize>
    ensures { L.ready listing.now → record { count = result; table = table.new } ≡ write_on used (L.part listing.now plane) table.old }
{
    let front = used.min(table.len());
    let count = listing.write_plane(plane, &mut table[front..])?;
    Some(used.saturating_add(count))
}

// Writes all planes behind the `used` first entries, and gives how many are then in use; none where the
// table was full before the end. Of a table with fewer entries than are said to be in use, nothing is
// written.
pub fn write_all_behind<E: Copy, L: Listing<E>>(
    listing: &L,
    table: &mut [E],
    used: usize,
) -> Option<usize>
    ensures { L.ready listing.now → record { count = result; table = table.new } ≡ write_on used (listed (L.part listing.now) (L.parts listing.now) 0) table.old }
{
    let front = used.min(table.len());
    let count = write_all(listing, &mut table[front..])?;
    Some(used.saturating_add(count))
}
