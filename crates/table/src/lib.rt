// A table of keys and values in slots handed in, entries in the order of arrival.
// `find` looks through the entries given; `add` is told how many slots are in use, and looks at no others.

#![tactic(auto)]

ghost use Rattle.std.specs.Prelude.{◌≡◌, ℕ, min, List, [], ◌∷◌, length, Decides};
ghost use Rattle.table.specs.Places.{Place, AddedAs};

// A key stands for a list of numbers, and two keys are the same exactly if their lists are. `==` promises nothing of meanings, so
// each kind says `same` for itself.
pub trait Key: Copy {
    ghost meaning: { Self → List ℕ };

    fn same(&self, other: &Self) -> bool
        ensures { Decides result (meaning self.now ≡ meaning other.now) };
}

// A slot: a key and what is kept for it.
#[derive(Clone, Copy)]
pub struct Entry<K, V> {
    pub key: K,
    pub value: V,
}

// Why an entry was not written: its key is there, or no slot is left.
#[derive(Clone, Copy, PartialEq, Eq, Debug)]
pub enum NotAdded {
    There,
    Full,
}

// The first of these entries whose key is the same as `key`.
pub fn find<K: Key, V>(entries: &[Entry<K, V>], key: &K) -> Option<usize>
    ensures { Place (λ e. K.meaning e.key ≡ K.meaning key.now) entries.now (length entries.now) result }
{
    entries.iter().position(|entry| entry.key.same(key))
}

// Writes an entry behind those in use and answers its place, unless its key is among them or no slot is left; no other slot changes.
// The slots stay beside their `len`, since they are lent memory: a list that is lent by `&mut` could not tell what it leaves in them.
pub fn add<K: Key, V: Copy>(
    slots: &mut [Entry<K, V>],
    len: usize,
    key: K,
    value: V,
) -> Result<usize, NotAdded>
    ensures { AddedAs (λ e. K.meaning e.key ≡ K.meaning key) (record { key = key; value = value }) slots.old (min len (length slots.old)) result slots.new }
{
    if find(&slots[..len.min(slots.len())], &key).is_some() {
        return Err(NotAdded::There);
    }
    if len >= slots.len() {
        return Err(NotAdded::Full);
    }
    slots[len] = Entry { key, value };
    Ok(len)
}

// A number is a key that stands for itself.
impl Key for u64 {
    ghost meaning = { λ k. k ∷ [] };

    fn same(&self, other: &u64) -> bool {
        *self == *other
    }
}
