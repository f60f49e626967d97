//! Which changes are made, and what is there after so many of them, worked out without a server.

/// How many objects there are at first.
pub const OBJECTS: u64 = 200;

/// The place of the object that the change of this number, from 0 on, makes: each once, and then each once more in another order.
pub fn place(number: u64) -> u64 {
    number.saturating_mul(7) % OBJECTS
}

/// Whether it removes it: every fifth change of the second round does.
pub fn is_removal(number: u64) -> bool {
    number >= OBJECTS && number % 5 == 0
}

/// The versions of all objects after so many changes, by their places; 0 of one that is not there.
pub fn versions(changes: u64) -> [u64; 200] {
    let mut versions = [0; 200];
    for number in 0..changes {
        if let Some(one) = versions.get_mut(place(number) as usize) {
            *one = if is_removal(number) {
                0
            } else {
                number.saturating_add(1)
            };
        }
    }
    versions
}
