// Runs word sources, sampling, shuffling and compromised sets on examples; apart from them, so that their crates are proved
// once.

#![tactic(auto)]

#[cfg(test)]
mod tests {
    use refusals::Refusal;
    use sampling::{RankSlot, sample_unique_indices, shuffle_items};
    use scenarios::CellState;
    use sets::{count_sets, write_set};
    use table::Entry;
    use words::{Source, SplitMix64, Tape, draw_up_to};

    // The number of the refusal, where there is one: the numbers are part of the product. The tests share no crate for this line.
    fn refused<T: Drop>(answer: Result<T, Refusal>) -> Option<u8> {
        answer.err().map(|refusal| refusal.number())
    }

    fn slots(keys: [u64; 6]) -> [RankSlot; 6] {
        keys.map(|key| Entry { key, value: () })
    }

    fn keys(slots: [RankSlot; 6]) -> [u64; 6] {
        slots.map(|slot| slot.key)
    }

    // As published.
    #[test]
    fn first_words(rt: HostRuntime) {
        let seeds = [
            (
                1234567,
                [
                    6457827717110365317,
                    3203168211198807973,
                    9817491932198370423,
                    4593380528125082431,
                    16408922859458223821,
                ],
            ),
            (
                0,
                [
                    16294208416658607535,
                    7960286522194355700,
                    487617019471545679,
                    17909611376780542444,
                    1961750202426094747,
                ],
            ),
        ];
        for (seed, words) in seeds.iter() {
            let mut source = SplitMix64::new(*seed);
            for word in words.iter() {
                assert_eq!(rt; source.take().ok(), Some(*word));
            }
        }
    }

    // Up to the greatest bound each word is itself.
    #[test]
    fn numbers_are_drawn(rt: HostRuntime) {
        let words = [u64::MAX, 0, 7];
        let mut tape = Tape::new(&words);
        assert_eq!(rt; draw_up_to(&mut tape, u64::MAX).ok(), Some(u64::MAX));
        assert_eq!(rt; draw_up_to(&mut tape, u64::MAX).ok(), Some(0));
        assert_eq!(rt; draw_up_to(&mut tape, 3).ok(), Some(3));
        assert_eq!(rt; refused(draw_up_to(&mut tape, 3)), Some(11));
    }

    #[test]
    fn ranks_are_sampled(rt: HostRuntime) {
        let words = [3, 3, 9, 10, 2];
        let mut ranks = slots([7; 6]);
        let answer = sample_unique_indices(&mut Tape::new(&words), 12, 5, &mut ranks);
        assert_eq!(rt; answer.ok(), Some(5));
        assert_eq!(rt; keys(ranks), [3, 8, 9, 10, 2, 7]);
    }

    // All ranks, where more are asked for than there are.
    #[test]
    fn all_ranks_are_sampled(rt: HostRuntime) {
        let words = [0, 0, 0];
        let mut ranks = slots([7; 6]);
        let answer = sample_unique_indices(&mut Tape::new(&words), 3, 5, &mut ranks);
        assert_eq!(rt; answer.ok(), Some(3));
        assert_eq!(rt; keys(ranks), [0, 1, 2, 7, 7, 7]);
    }

    #[test]
    fn short_rank_memory_is_refused(rt: HostRuntime) {
        let words = [3, 3, 9, 10, 2, 1, 0];
        let mut tape = Tape::new(&words);
        let mut ranks = slots([1, 2, 3, 4, 5, 6]);
        let answer = sample_unique_indices(&mut tape, 12, 7, &mut ranks);
        assert_eq!(rt; refused(answer), Some(10));
        assert_eq!(rt; keys(ranks), [1, 2, 3, 4, 5, 6]);
        // no word was taken
        assert_eq!(rt; tape.take().ok(), Some(3));
    }

    #[test]
    fn spent_tapes_are_refused(rt: HostRuntime) {
        let words = [3, 3, 9, 10];
        let mut ranks = slots([7; 6]);
        let answer = sample_unique_indices(&mut Tape::new(&words), 12, 5, &mut ranks);
        assert_eq!(rt; refused(answer), Some(11));
        assert_eq!(rt; keys(ranks), [0; 6]);
        let mut items = [0u8, 1, 2, 3, 4, 5];
        assert_eq!(rt;
            refused(shuffle_items(&mut items, &mut Tape::new(&words))),
            Some(11)
        );
    }

    // The exchanges made before the words ran out stay.
    #[test]
    fn spent_shuffles_stay(rt: HostRuntime) {
        let words = [3, 3, 9, 10];
        let mut items = [0u8, 1, 2, 3, 4, 5];
        assert!(rt; shuffle_items(&mut items, &mut Tape::new(&words)).is_err());
        assert_eq!(rt; items, [0, 2, 4, 1, 5, 3]);
    }

    #[test]
    fn lists_are_shuffled(rt: HostRuntime) {
        let words = [5, 4, 1];
        let mut items = [0u8, 1, 2, 3];
        assert!(rt; shuffle_items(&mut items, &mut Tape::new(&words)).is_ok());
        assert_eq!(rt; items, [0, 2, 3, 1]);
    }

    // 64 participants in single cells.
    fn singles() -> CellState {
        CellState {
            boundaries: (1 << 63) - 1,
        }
    }

    #[test]
    fn sets_are_counted(rt: HostRuntime) {
        assert_eq!(rt;
            count_sets(64, 32, singles()).ok(),
            Some(1832624140942590534)
        );
    }

    #[test]
    fn sets_are_numbered(rt: HostRuntime) {
        let mut members = [0usize; 32];
        assert_eq!(rt;
            refused(write_set(64, 32, singles(), 0, &mut members)),
            None
        );
        assert!(rt; members.iter().copied().eq(32..64));
        let last = 1832624140942590533;
        assert_eq!(rt;
            refused(write_set(64, 32, singles(), last, &mut members)),
            None
        );
        assert!(rt; members.iter().copied().eq(0..32));
        assert_eq!(rt;
            refused(write_set(64, 32, singles(), last + 1, &mut members)),
            Some(16)
        );
        // nothing was written
        assert!(rt; members.iter().copied().eq(0..32));
    }

    #[test]
    fn sets_are_refused(rt: HostRuntime) {
        assert_eq!(rt; refused(count_sets(1, 1, singles())), Some(1));
        assert_eq!(rt; refused(count_sets(65, 1, singles())), Some(2));
        assert_eq!(rt; refused(count_sets(4, 0, singles())), Some(3));
        assert_eq!(rt; refused(count_sets(4, 4, singles())), Some(4));
        let mut members = [9usize; 2];
        assert_eq!(rt;
            refused(write_set(4, 3, singles(), 0, &mut members)),
            Some(15)
        );
        assert_eq!(rt;
            refused(write_set(4, 2, singles(), 6, &mut members)),
            Some(16)
        );
        assert_eq!(rt; members, [9, 9]);
        // with no boundary, the four are alike, and have one set
        assert_eq!(rt; count_sets(4, 2, CellState::initial()).ok(), Some(1));
    }
}
