// What can be asked.
ghost use Rattle.std.specs.Prelude.{◌≡◌, ℕ, List};

use crate::unasked::Unasked;
use std::alloc::Global;
use std::str::SplitWhitespace;

// A kind of question, by the word that a line of it begins with.
pub trait Question: Copy + PartialEq + 'static {
    // what its questions are answered in
    type Memory;

    ghost kinds: { List Self };

    ghost word: { Self → List ℕ };

    // All kinds, in the order in which they are told of at the end.
    fn kinds() -> &'static [Self]
        ensures { result.now ≡ kinds };

    fn word(self) -> &'static str
        ensures { result.now ≡ word self };

    // Asks the question that the words behind the first write, and answers whether the answer that follows it agrees. The words
    // behind that are left over.
    fn agrees(
        self,
        words: &mut SplitWhitespace<'_>,
        heap: Global,
        memory: &mut Self::Memory,
    ) -> Result<bool, Unasked>;
}
