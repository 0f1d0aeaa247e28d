// Runs the reader of plan lines on examples; apart from it, so that its crate is proved once.

#![tactic(auto)]

#[cfg(test)]
mod tests {
    use refusals::Refusal;
    use scenarios::Mode;
    use text::{PlanLine, read_plan_line};

    fn line(participants: u32, faults: u32, rounds: u32, mode: Mode, cap: u32) -> PlanLine {
        PlanLine {
            participants,
            faults,
            rounds,
            mode,
            cap,
        }
    }

    #[test]
    fn lines_are_read(rt: HostRuntime) {
        let lines = [
            ("2 1 1 s 2\n", line(2, 1, 1, Mode::Sampled, 2)),
            ("4 1 10 u 100\n", line(4, 1, 10, Mode::Sustained, 100)),
            ("0 0 0 s 0\n", line(0, 0, 0, Mode::Sampled, 0)),
            (
                "64 63 64 u 4294967295\n",
                line(64, 63, 64, Mode::Sustained, 4294967295),
            ),
        ];
        for (text, line) in lines.iter() {
            assert_eq!(rt; read_plan_line(text.as_bytes()), Ok(*line), "{}", text);
        }
    }

    #[test]
    fn faults_are_placed(rt: HostRuntime) {
        let faults = [
            // no end
            ("", 0),
            ("x", 1),
            ("2 ", 2),
            ("2 1 1 s 2", 9),
            // a bad field
            ("02 1", 0),
            (" 1 1 s 2\n", 0),
            ("+2 1 1 s 2\n", 0),
            ("2 1\t 1 s 2\n", 2),
            ("2 1 1\ns 2\n", 4),
            ("2 1 1 S 2\n", 6),
            ("2 1 1 su 2\n", 6),
            ("2 1 1  2\n", 6),
            ("2 1 1 s 2 3\n", 8),
            ("2 1 1 s 2\r\n", 8),
            ("2 1 1 s \n", 8),
            ("2 1 1 s 4294967296\n", 8),
            ("2 1 1 s 99999999999999999999999999999999\n", 8),
            // bytes after the line
            ("2 1 1 s 2\nx", 10),
            ("2 1 1 s 2\n\n", 10),
        ];
        for (text, place) in faults.iter() {
            assert_eq!(rt;
                read_plan_line(text.as_bytes()),
                Err(Refusal::PlanLine(*place)),
                "{}",
                text
            );
        }
    }
}
