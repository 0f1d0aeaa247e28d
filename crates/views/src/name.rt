// Names of participants. A name means a value, a list of numbers, and two names are the same exactly if their values are.
ghost use Rattle.std.specs.Prelude.{[], ◌∷◌};

pub use table::Key as Name;

// A public key of 32 bytes.
#[derive(Clone, Copy)]
pub struct PublicKey {
    pub bytes: [u8; 32],
}

// The number of a seat.
#[derive(Clone, Copy)]
pub struct Seat {
    pub number: u16,
}

impl Name for Seat {
    ghost meaning = { λ s. s.number ∷ [] };

    fn same(&self, other: &Seat) -> bool {
        self.number == other.number
    }
}

impl Name for PublicKey {
    ghost meaning = { λ k. k.bytes };

    fn same(&self, other: &PublicKey) -> bool {
        self.bytes == other.bytes
    }
}
