//! How those wait who have to, and the work that they make with what came.

/// How a caller waits.
#[derive(Clone, Copy, Drop)]
pub enum Waiting {
    /// It looks, by the rule of `cqs_waiter` for a caller who may not sleep.
    Looks,
    /// It looks, and then sleeps until it was served.
    Sleeps,
}

impl Waiting {
    /// Who is measured, as a row names it.
    pub fn peer(self) -> &'static str {
        match self {
            Waiting::Looks => "ours-poll",
            Waiting::Sleeps => "ours-park",
        }
    }
}

/// Of each of four threads one.
pub type Four<T> = ((T, T), (T, T));

// So many steps of work are made with what came.
const STEPS: u32 = 100;

/// Steps of xorshift, which never come to 0.
pub fn work(seed: u64) -> u64 {
    let mut word = seed;
    for _ in 0..STEPS {
        word ^= word << 13;
        word ^= word >> 7;
        word ^= word << 17;
    }
    word
}
