//! How far a search is.

/// Where a search stands.
#[derive(Clone, Copy)]
pub struct Stand {
    /// Whether it follows serial orders alone.
    pub is_serial: bool,
    /// How many lines led to the states that it follows now.
    pub level: usize,
    /// The most lines of an order.
    pub levels: usize,
    /// How many states it has followed in which a lane may give.
    pub states: u64,
}

/// Takes reports on how far a search is.
pub trait Progress {
    /// Takes where a search stands. It is called after each state that is followed, or taken over
    /// into the next level because no lane may give there.
    fn tell(&mut self, stand: Stand);
}
