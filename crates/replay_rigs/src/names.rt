// The names of a question, which are asked as seats and as keys, and memory for groups of them.
use asking::Unasked;
use std::alloc::{AllocError, Global};
use views::{Name, PublicKey, Seat};

// More than a group can have, so that some slots stay behind each.
const ROOM: usize = 66;

// A kind of name that has one for each number.
pub(crate) trait Numbered: Name {
    fn numbered(number: u16) -> Self;
}

impl Numbered for Seat {
    fn numbered(number: u16) -> Seat {
        Seat { number }
    }
}

impl Numbered for PublicKey {
    // Its bytes are those of the number, in the first place and in the last.
    fn numbered(number: u16) -> PublicKey {
        let [high, low] = number.to_be_bytes();
        let mut bytes = [0u8; 32];
        bytes[0] = low;
        bytes[31] = high;
        PublicKey { bytes }
    }
}

pub(crate) fn named<N: Numbered>(heap: Global, numbers: &[u16]) -> Result<Vec<N>, AllocError> {
    numbers
        .iter()
        .map(|number| N::numbered(*number))
        .collect(heap)
}

// The least number that is none of these.
pub(crate) fn unused(numbers: &[u16]) -> Result<u16, Unasked> {
    (0..u16::MAX)
        .find(|number| !numbers.contains(number))
        .ok_or(Unasked::Form)
}

// Memory for a group; the marker is no name of the question.
#[derive(Drop)]
pub(crate) struct Room<N> {
    pub(crate) slots: Vec<N>,
    marker: u16,
}

impl<N: Numbered> Room<N> {
    // Every slot holds the marker.
    pub(crate) fn marked(heap: Global, marker: u16) -> Result<Room<N>, AllocError> {
        Ok(Room {
            slots: vec![in heap; N::numbered(marker); ROOM]?,
            marker,
        })
    }

    // Whether the first slots hold this group, and those behind it still the marker.
    pub(crate) fn holds(&self, group: &[u16]) -> bool {
        self.slots.iter().enumerate().all(|(place, slot)| {
            let number = group.get(place).copied().unwrap_or(self.marker);
            slot.same(&N::numbered(number))
        })
    }
}
