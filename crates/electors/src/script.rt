// A script over an elector.
ghost use Rattle.std.specs.Prelude.{◌≤◌, length};

use arrayvec::ArrayVec;
use refusals::Refusal;

mod leading;
mod making;

// At most 64 leaders for the first terms; past them the elector below says who leads. An `ArrayVec` keeps its bound to itself, so
// `few` says it to whoever holds a script.
#[derive(Drop)]
pub struct ElectorState<E> {
    below: E,
    leaders: ArrayVec<usize, 64>,
    ghost few: { length leaders.items ≤ 64 },
}

// Why a script is not made, and an empty one over the same elector. The script stands first: so it lies where a made one does, and
// what `ElectorState::new` answers is copied once less.
#[derive(Drop)]
pub struct ScriptRefused<E> {
    pub script: ElectorState<E>,
    pub refusal: Refusal,
}
