//! What a search writes before it reads it, and where the searches before found the best places.
use crate::spot::Spot;

/// The best places in whole samples that the last two searches of a kind found, from the corner of the window. Two, since
/// searches in two references go by turns. Any place serves: a search only looks there first.
#[derive(Clone, Copy)]
pub struct Likely {
    /// The last one.
    pub last: Spot,
    /// The one before it.
    pub before: Spot,
}

/// The samples around a macroblock in a reference frame or field, and the sums over parts of its size at each place there.
#[derive(Drop)]
pub struct Surroundings {
    /// The samples, 48 lines of 48.
    pub window: [u8; 2304],
    /// The sums, 40 lines of 48.
    pub sums: [u16; 1920],
}

impl Surroundings {
    /// Room for them.
    #[inline(always)]
    fn new() -> Surroundings {
        Surroundings {
            window: [0; 2304],
            sums: [0; 1920],
        }
    }
}

/// Room for what searches look at. A search reads of it only what it has written, so one serves any number of searches, and
/// none clears it.
#[derive(Drop)]
pub struct SearchScratch {
    /// What is around the macroblock in the reference. Where both of its fields are searched, they stand here one after the
    /// other.
    pub around: Surroundings,
    /// Likely places, by the kind of search.
    pub likely: [Likely; 6],
}

impl SearchScratch {
    /// Room for searches.
    #[inline(always)]
    pub fn new() -> SearchScratch {
        let corner = Spot { y: 0, x: 0 };
        let none = Likely {
            last: corner,
            before: corner,
        };
        SearchScratch {
            around: Surroundings::new(),
            likely: [none, none, none, none, none, none],
        }
    }
}

/// The likely places with one more.
#[inline(always)]
pub fn with_found(likely: Likely, found: Spot) -> Likely {
    Likely {
        last: Spot {
            y: found.y / 2,
            x: found.x / 2,
        },
        before: likely.last,
    }
}
