//! What a loss of power takes.

/// What is lost of that which wasn't synced.
#[derive(Clone, Copy, Debug, PartialEq, Eq)]
pub enum Loss {
    Nothing,
    All,
    /// Some of it, by this number.
    Some(u64),
}

/// What becomes of a file's bytes that weren't synced.
#[derive(Clone, Copy, Debug, PartialEq, Eq)]
pub enum LostBytes {
    None,
    All,
    /// They are zeros.
    Zeroed,
}

impl Loss {
    /// Whether the changes of names by this call are lost.
    pub fn loses_call(self, call: u64) -> bool {
        match self {
            Loss::Nothing => false,
            Loss::All => true,
            Loss::Some(seed) => mixed(seed, call) % 2 == 0,
        }
    }

    /// What becomes of the bytes of this file that weren't synced.
    pub fn of_file(self, number: usize) -> LostBytes {
        match self {
            Loss::Nothing => LostBytes::None,
            Loss::All => LostBytes::All,
            Loss::Some(seed) => match mixed(!seed, number as u64) % 3 {
                0 => LostBytes::None,
                1 => LostBytes::All,
                _ => LostBytes::Zeroed,
            },
        }
    }
}

// Another number for each two numbers.
fn mixed(seed: u64, number: u64) -> u64 {
    let mut x = seed ^ number.wrapping_mul(0x9e37_79b9_7f4a_7c15);
    x = (x ^ (x >> 30)).wrapping_mul(0xbf58_476d_1ce4_e5b9);
    x = (x ^ (x >> 27)).wrapping_mul(0x94d0_49bb_1331_11eb);
    (x ^ (x >> 31)) >> 8
}
