// What an elector is.
ghost use Rattle.std.specs.Prelude.{◌≡◌, ℕ, ◌<◌};

use terms::TermLength;

// What an elector of a fixed schedule is handed for a view: nothing.
#[derive(Clone, Copy)]
pub struct Scheduled;

// What an elector without a schedule is handed for a view: a number that decides.
#[derive(Clone, Copy)]
pub struct Dynamic {
    pub number: u64,
}

// Says who leads each view. It is never refused, and asking changes nothing.
pub trait Elector {
    // what it is handed for a view
    type Mode;

    // how many participants there are
    ghost counts: { Self → ℕ };

    // how many views share one leader
    ghost terms: { Self → ℕ };

    // the leader at an epoch, a view and an input
    ghost elects: { Self → ℕ → ℕ → Self.Mode → ℕ };

    // How many participants there are.
    fn participants(&self) -> usize
        ensures { result ≡ counts self.now };

    // How many views share one leader.
    fn term_length(&self) -> TermLength
        ensures { result.length ≡ terms self.now };

    // The leader of a view, by its number.
    fn elect(&self, epoch: u64, view: u64, input: &Self::Mode) -> usize
        ensures { (result ≡ elects self.now epoch view input.now) × (result < counts self.now) };
}
