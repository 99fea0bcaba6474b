// When pieces are not tried over rows.

// How many pieces are left clock by clock: after one that could not be made over rows one, and twice as many and one more after
// each further one, up to 63.
#[derive(Clone, Copy)]
pub struct Pause {
    left: u32,
    last: u32,
}

// The most pieces that are left so at once.
const MOST: u32 = 63;

impl Pause {
    // None.
    pub fn new() -> Pause {
        Pause { left: 0, last: 0 }
    }

    // Whether this piece is left so.
    pub fn is_on(&mut self) -> bool {
        if self.left > 0 {
            self.left -= 1;
            true
        } else {
            false
        }
    }

    // Notes whether a piece was made over rows.
    pub fn note(&mut self, ran: bool) {
        if ran {
            self.last = 0;
        } else {
            self.last = self.last.saturating_mul(2).saturating_add(1).min(MOST);
            self.left = self.last;
        }
    }
}
