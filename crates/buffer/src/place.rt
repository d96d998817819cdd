// The binary search in a row, on 16-bit places: a row has at most 1,024 of them, so the sum of two fits as well.
ghost use Rattle.std.specs.Prelude.{◌≡◌, ◌≤◌, take};
ghost use Rattle.buffer.specs.Row.{below};

use super::times::Times;

impl Times<'_> {
    // How many held instants are below t: where t has its place among them.
    // A held instant ends the search. (Without that way out, as in the library's `binary_search`, the compiler makes a loop
    // of conditional moves, which is slower in a lookup: docs/PERFORMANCE.md.)
    pub(crate) fn place(&self, t: u64) -> u16
        requires { self.now.count ≤ 1024 }
        ensures place { result ≡ below t (take self.now.count self.now.instants.now) }
        ensures bound { result ≤ self.now.count }
    {
        let instants = self.instants;
        let mut low: u16 = 0;
        let mut high = self.count as u16;
        while low < high {
            let middle = (low + high) / 2;
            let instant = instants[middle as usize];
            if instant < t {
                low = middle + 1;
            } else if instant == t {
                return middle;
            } else {
                high = middle;
            }
        }
        low
    }
}
