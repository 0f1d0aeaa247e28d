// Runs terms, groups, routes and electors on examples; apart from them, so that their crates are proved once.

#![tactic(auto)]

ghost use Rattle.std.specs.Prelude.{◌≤◌};

#[cfg(test)]
mod tests {
    use electors::{
        Dynamic, Elector, ElectorState, Lot, Rotation, Scheduled, elect_both, script_both,
    };
    use refusals::Refusal;
    use scenarios::RoundScenario;
    use std::process::Abort;
    use std::test::Fail;
    use terms::TermLength;
    use views::{Scenario, Seat, SplitTarget, view_partitions, view_route};

    // The number of the refusal, where there is one: the numbers are part of the product. The tests share no crate for this line.
    fn refused<T: Drop>(answer: Result<T, Refusal>) -> Option<u8> {
        answer.err().map(|refusal| refusal.number())
    }

    fn seat(number: u16) -> Seat {
        Seat { number }
    }

    fn numbers(seats: [Seat; 4]) -> [u16; 4] {
        seats.map(|seat| seat.number)
    }

    // A round in which the primary half hears the second and third name, the secondary half the first and third.
    fn round() -> RoundScenario {
        RoundScenario {
            leader: 2,
            primary: 6,
            secondary: 5,
        }
    }

    #[test]
    fn views_have_places(rt: HostRuntime) -> Result<(), Fail> {
        let term = TermLength::new(5)?;
        for view in 0..6 {
            assert_eq!(rt; term.script_place(view), 0);
        }
        assert_eq!(rt; term.script_place(6), 1);
        assert_eq!(rt; term.index(0), 0);
        assert_eq!(rt; term.index(6), 2);
        assert_eq!(rt; term.start(10), 6);
        Ok(())
    }

    #[test]
    fn names_are_parted(rt: HostRuntime) {
        let rounds = [round()];
        let script = Scenario { rounds: &rounds };
        let names = [seat(10), seat(11), seat(12)];
        let mut primary = [seat(7); 4];
        let mut secondary = [seat(8); 4];
        let answer = script.partitions(1, 5, &names, &mut primary, &mut secondary);
        assert_eq!(rt; answer.ok(), Some((2, 2)));
        assert_eq!(rt; numbers(primary), [11, 12, 7, 7]);
        assert_eq!(rt; numbers(secondary), [10, 12, 8, 8]);
        // past the script each half hears all
        let answer = script.partitions(6, 5, &names, &mut primary, &mut secondary);
        assert_eq!(rt; answer.ok(), Some((3, 3)));
        assert_eq!(rt; numbers(primary), [10, 11, 12, 7]);
        assert_eq!(rt; numbers(secondary), [10, 11, 12, 8]);
    }

    #[test]
    fn messages_are_routed(rt: HostRuntime) {
        let rounds = [round()];
        let script = Scenario { rounds: &rounds };
        let names = [seat(10), seat(11), seat(12)];
        let target = script.route(1, 5, &seat(10), &names).ok();
        assert_eq!(rt; target, Some(SplitTarget::Secondary));
        let target = script.route(1, 5, &seat(11), &names).ok();
        assert_eq!(rt; target, Some(SplitTarget::Primary));
        let target = script.route(1, 5, &seat(12), &names).ok();
        assert_eq!(rt; target, Some(SplitTarget::Both));
        // past the script every sender is heard by both, also one that is no name
        let target = script.route(6, 5, &seat(13), &names).ok();
        assert_eq!(rt; target, Some(SplitTarget::Both));
    }

    // The number of the refusal of groups by so many rounds and names in two memories, which have to stay as they are.
    fn partitions_refused(
        rt: &impl Abort,
        rounds: usize,
        term: u32,
        names: usize,
        first: usize,
        second: usize,
    ) -> Option<u8>
        requires { (rounds ≤ 65) × (names ≤ 65) × (first ≤ 65) × (second ≤ 65) }
    {
        let script = [round(); 65];
        let list = [seat(1); 65];
        let mut primary = [seat(7); 65];
        let mut secondary = [seat(7); 65];
        let script = Scenario {
            rounds: &script[..rounds],
        };
        let answer = script.partitions(
            1,
            term,
            &list[..names],
            &mut primary[..first],
            &mut secondary[..second],
        );
        assert!(rt;
            primary
                .iter()
                .chain(secondary.iter())
                .all(|seat| seat.number == 7)
        );
        refused(answer)
    }

    // In their order, where two or more hold.
    #[test]
    fn partitions_are_refused(rt: HostRuntime) {
        assert_eq!(rt; partitions_refused(&rt, 65, 0, 65, 0, 0), Some(7));
        assert_eq!(rt; partitions_refused(&rt, 65, 1, 3, 3, 3), Some(7));
        assert_eq!(rt; partitions_refused(&rt, 64, 0, 65, 0, 0), Some(18));
        assert_eq!(rt; partitions_refused(&rt, 1, 0, 3, 3, 3), Some(18));
        assert_eq!(rt; partitions_refused(&rt, 1, 1, 65, 0, 0), Some(19));
        assert_eq!(rt; partitions_refused(&rt, 0, 1, 65, 65, 65), Some(19));
        assert_eq!(rt; partitions_refused(&rt, 1, 1, 3, 1, 2), Some(22));
        assert_eq!(rt; partitions_refused(&rt, 1, 1, 3, 2, 1), Some(22));
        assert_eq!(rt; partitions_refused(&rt, 0, 1, 64, 63, 64), Some(22));
        assert_eq!(rt; partitions_refused(&rt, 0, 1, 64, 64, 63), Some(22));
        // no names are no fault
        assert_eq!(rt; partitions_refused(&rt, 1, 1, 0, 0, 0), None);
    }

    // The number of the refusal of a route by so many rounds and names, which are seat 1 each.
    fn route_refused(rounds: usize, term: u32, sender: u16, names: usize) -> Option<u8>
        requires { (rounds ≤ 65) × (names ≤ 65) }
    {
        let script = [round(); 65];
        let list = [seat(1); 65];
        let script = Scenario {
            rounds: &script[..rounds],
        };
        refused(script.route(1, term, &seat(sender), &list[..names]))
    }

    #[test]
    fn routes_are_refused(rt: HostRuntime) {
        assert_eq!(rt; route_refused(65, 0, 2, 65), Some(7));
        assert_eq!(rt; route_refused(65, 1, 1, 3), Some(7));
        assert_eq!(rt; route_refused(64, 0, 2, 65), Some(18));
        assert_eq!(rt; route_refused(1, 0, 1, 3), Some(18));
        assert_eq!(rt; route_refused(1, 1, 2, 65), Some(19));
        assert_eq!(rt; route_refused(1, 1, 1, 65), Some(19));
        assert_eq!(rt; route_refused(1, 1, 2, 64), Some(21));
        assert_eq!(rt; route_refused(1, 1, 1, 0), Some(21));
        // past the script nothing is wrong with a sender that is no name
        assert_eq!(rt; route_refused(0, 1, 2, 64), None);
    }

    // The number of the refusal of a split of so many names in two memories, which have to stay as they are. At view 2 the
    // cut of three names is at 2.
    fn split_refused(
        rt: &impl Abort,
        term: u32,
        names: usize,
        first: usize,
        second: usize,
    ) -> Option<u8>
        requires { (names ≤ 65) × (first ≤ 65) × (second ≤ 65) }
    {
        let list = [seat(1); 65];
        let mut primary = [seat(7); 65];
        let mut secondary = [seat(7); 65];
        let answer = view_partitions(
            2,
            term,
            &list[..names],
            &mut primary[..first],
            &mut secondary[..second],
        );
        assert!(rt;
            primary
                .iter()
                .chain(secondary.iter())
                .all(|seat| seat.number == 7)
        );
        refused(answer)
    }

    #[test]
    fn splits_are_refused(rt: HostRuntime) {
        assert_eq!(rt; split_refused(&rt, 0, 65, 0, 0), Some(18));
        assert_eq!(rt; split_refused(&rt, 0, 0, 0, 0), Some(18));
        assert_eq!(rt; split_refused(&rt, 1, 65, 0, 0), Some(19));
        assert_eq!(rt; split_refused(&rt, 1, 0, 0, 0), Some(20));
        assert_eq!(rt; split_refused(&rt, 1, 3, 1, 1), Some(22));
        assert_eq!(rt; split_refused(&rt, 1, 3, 2, 0), Some(22));
        assert_eq!(rt; split_refused(&rt, 1, 64, 2, 61), Some(22));
    }

    // The number of the refusal of a route by a split of so many names, which are seat 1 each.
    fn split_route_refused(term: u32, sender: u16, names: usize) -> Option<u8>
        requires { names ≤ 65 }
    {
        let list = [seat(1); 65];
        refused(view_route(2, term, &seat(sender), &list[..names]))
    }

    #[test]
    fn split_routes_are_refused(rt: HostRuntime) {
        assert_eq!(rt; split_route_refused(0, 2, 65), Some(18));
        assert_eq!(rt; split_route_refused(0, 2, 0), Some(18));
        assert_eq!(rt; split_route_refused(1, 2, 65), Some(19));
        assert_eq!(rt; split_route_refused(1, 2, 0), Some(20));
        assert_eq!(rt; split_route_refused(1, 2, 3), Some(21));
    }

    #[test]
    fn names_are_split(rt: HostRuntime) {
        let names = [seat(10), seat(11), seat(12), seat(10)];
        let mut primary = [seat(7); 4];
        let mut secondary = [seat(8); 4];
        let answer = view_partitions(3, 1, &names, &mut primary, &mut secondary);
        assert_eq!(rt; answer.ok(), Some((3, 1)));
        assert_eq!(rt; numbers(primary), [10, 11, 12, 7]);
        assert_eq!(rt; numbers(secondary), [10, 8, 8, 8]);
        let target = view_route(3, 1, &seat(10), &names).ok();
        assert_eq!(rt; target, Some(SplitTarget::Both));
        let target = view_route(3, 1, &seat(12), &names).ok();
        assert_eq!(rt; target, Some(SplitTarget::Primary));
    }

    // A script over an elector of 4 participants by turns has to be refused with this number, which is what users are told.
    // What comes back has to be empty, and to have the leaders of the elector below.
    fn check_script_refused(rt: &impl Abort, leaders: &[usize], number: u8) -> Result<(), Fail> {
        let below = Rotation::new(4, 5)?;
        let Err(back) = ElectorState::new(below, leaders) else {
            panic!(rt; "not refused");
        };
        assert_eq!(rt; back.refusal.number(), number);
        assert_eq!(rt; back.script.leaders().len(), 0);
        assert_eq!(rt; back.script.participants(), 4);
        assert_eq!(rt; back.script.term_length().get(), 5);
        assert_eq!(rt; back.script.elect(3, 6, &Scheduled), 2);
        for view in [0u64, 1, 5, 10, 11, 16, 21, 18446744073709551615] {
            assert_eq!(rt;
                back.script.elect(3, view, &Scheduled),
                below.elect(3, view, &Scheduled)
            );
        }
        Ok(())
    }

    #[test]
    fn scripts_are_refused(rt: HostRuntime) -> Result<(), Fail> {
        check_script_refused(&rt, &[3; 65], 7)?;
        check_script_refused(&rt, &[4; 65], 7)?;
        check_script_refused(&rt, &[4; 64], 23)?;
        check_script_refused(&rt, &[0, 3, 4], 23)
    }

    #[test]
    fn scripts_lead_over_a_lot(rt: HostRuntime) -> Result<(), Fail> {
        let below = Lot::new(4, 5)?;
        let Ok(script) = ElectorState::new(below, &[0, 3]) else {
            panic!(rt; "refused");
        };
        let input = Dynamic { number: 9 };
        assert_eq!(rt; script.elect(0, 5, &input), 0);
        assert_eq!(rt; script.elect(0, 6, &input), 3);
        assert_eq!(rt; script.elect(0, 10, &input), 3);
        assert_eq!(rt; script.elect(0, 11, &input), 1);
        Ok(())
    }

    // A script of no leaders means what the elector below it means, and so do scripts of the same leaders over the two.
    #[test]
    fn electors_of_one_meaning_agree(rt: HostRuntime) -> Result<(), Fail> {
        let turns = Rotation::new(4, 5)?;
        let Ok(empty) = ElectorState::new(turns, &[]) else {
            panic!(rt; "refused");
        };
        for view in [0u64, 5, 6, 18446744073709551615] {
            let (a, b) = elect_both(&turns, &empty, 7, view, &Scheduled);
            assert!(rt; a == b);
            assert!(rt; a == (4, 5, turns.elect(7, view, &Scheduled)));
        }
        let (over_turns, over_empty) = script_both(turns, empty, &[3, 1]);
        let Ok(a) = over_turns else {
            panic!(rt; "refused");
        };
        let Ok(b) = over_empty else {
            panic!(rt; "refused");
        };
        for (view, leader) in [(5u64, 3usize), (6, 1), (10, 1), (11, 3), (16, 0)] {
            assert_eq!(rt; a.elect(0, view, &Scheduled), leader);
            assert_eq!(rt; b.elect(0, view, &Scheduled), leader);
        }
        Ok(())
    }
}
