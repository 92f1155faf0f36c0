// Tests along a line of numbers, and their longest stretches.
ghost use Rattle.std.specs.Prelude.{◌≡◌, ℕ, ◌-◌, ◌<◌, ◌≤◌, Bool, true, false, not};
ghost use Rattle.boxes.specs.Stretches.{all_true, opens, reach, stretch};

// A test of the numbers below a size.
pub(crate) trait Line {
    // what is true at a number
    ghost holds: { Self → ℕ → Bool };

    // the size
    ghost extent: { Self → ℕ };

    fn size(&self) -> u16
        ensures { result ≡ extent self.now };

    fn at(&self, i: u16) -> bool
        ensures { result ≡ holds self.now i };

    // From i below the size, a later number, at most the size, such that from i up to it all is as at i.
    fn jump(&self, i: u16) -> u16
        ensures bounds { i < extent self.now → (i < result) × (result ≤ extent self.now) }
        ensures same { i < extent self.now → (n : ℕ) → i ≤ n → n < result → holds self.now n ≡ holds self.now i };
}

// Where the stretch that holds i ends. (A `while`, as in `tables::write_all`.)
pub(crate) fn stretch_end<L: Line>(line: &L, i: u16) -> u16
    requires { (i < L.extent line.now) × (L.holds line.now i ≡ true) }
    ensures { result ≡ reach (L.holds line.now) (L.extent line.now) i }
{
    let size = line.size();
    let mut end = line.jump(i);
    while end < size && line.at(end) {
        end = line.jump(end);
    }
    end
}

// The complement of a test.
#[derive(Drop)]
struct Complement<'a, L: Line> {
    line: &'a L,
}

impl<'a, L: Line> Line for Complement<'a, L> {
    ghost holds = { λ l i. not (L.Line.holds l.line.now i) };

    ghost extent = { λ l. L.Line.extent l.line.now };

    fn size(&self) -> u16 {
        self.line.size()
    }

    fn at(&self, i: u16) -> bool {
        !self.line.at(i)
    }

    fn jump(&self, i: u16) -> u16 {
        self.line.jump(i)
    }
}

// Where the gap ends that begins at i: the first number from i on, at which all is false, that begins a
// stretch, or the size.
pub(crate) fn gap_end<L: Line>(line: &L, i: u16) -> u16
    requires within { i ≤ L.extent line.now }
    requires gap { i < L.extent line.now → L.holds line.now i ≡ false }
    ensures { result ≡ reach (λ j. not (L.holds line.now j)) (L.extent line.now) i }
{
    if i < line.size() {
        stretch_end(&Complement { line }, i)
    } else {
        i
    }
}

// Where the first stretch begins, or the size.
pub(crate) fn first_start<L: Line>(line: &L) -> u16
    ensures { result ≡ reach (λ j. not (L.holds line.now j)) (L.extent line.now) 0 }
{
    if line.at(0) { 0 } else { gap_end(line, 0) }
}

// Whether the stretch that holds i begins there.
pub(crate) fn is_first<L: Line>(line: &L, i: u16) -> bool
    requires { L.holds line.now i ≡ true }
    ensures { result ≡ opens (L.holds line.now) i }
{
    i == 0 || !line.at(i - 1)
}

// Whether a stretch begins at i.
fn begins<L: Line>(line: &L, i: u16) -> bool
    ensures { result ≡ opens (L.holds line.now) i }
{
    line.at(i) && is_first(line, i)
}

// Whether all is true from `low`, where it is, up to `high`. (A `while`, as in
// `tables::write_all`.)
fn covers<L: Line>(line: &L, low: u16, high: u16) -> bool
    requires bounds { (low < high) × (high ≤ L.extent line.now) }
    requires first { L.holds line.now low ≡ true }
    ensures { result ≡ all_true (L.holds line.now) (high - low) low }
{
    let mut at = line.jump(low);
    while at < high {
        if !line.at(at) {
            return false;
        }
        at = line.jump(at);
    }
    true
}

// Whether the numbers from `low` up to `high` are a longest stretch.
pub(crate) fn is_stretch<L: Line>(line: &L, low: u16, high: u16) -> bool
    requires { (low < high) × (high ≤ L.extent line.now) }
    ensures { result ≡ stretch (L.holds line.now) (L.extent line.now) low high }
{
    if !begins(line, low) {
        return false;
    }
    if high < line.size() && line.at(high) {
        return false;
    }
    covers(line, low, high)
}
