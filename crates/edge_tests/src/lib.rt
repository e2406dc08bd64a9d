// Rules, audits and frames at the edges of their ranges. They are proved; these tests run them.
#![tactic(auto)]

#[cfg(test)]
mod tests {
    use frames::{Frame, Grant, Line, SideBySide};
    use limits::{LAST_TICK, Refusal, Stair, Table};
    use records::{Request, Stroke, audit};
    use rules::{OpenRule, Rule, StairOn, TableOn};
    use std::test::Fail;

    #[test]
    fn bursts_and_periods_in_range(rt: HostRuntime) {
        for (burst, period, in_range) in [
            (255, 1, true),
            (256, 1, false),
            (0, 1, false),
            (1, 1_000_000_000, true),
            (1, 1_000_000_001, false),
            (1, 0, false),
        ] {
            assert_eq!(rt;
                Stair::new(burst, period).is_ok(),
                in_range,
                "({burst}, {period})"
            );
        }
    }

    #[test]
    fn a_seventeenth_distance_is_refused(rt: HostRuntime) {
        let mut table = Table::new();
        for k in 1..=16 {
            assert_eq!(rt; table.push(10 * k), Ok(()));
        }
        assert_eq!(rt; table.push(170), Err(Refusal::Full));
        assert_eq!(rt; table.push(0), Err(Refusal::Full));
        assert_eq!(rt; table.distances().len(), 16);
        assert_eq!(rt; table.largest(), 160);
    }

    #[test]
    fn a_distance_that_falls_is_refused(rt: HostRuntime) -> Result<(), Fail> {
        let mut table = Table::new();
        table.push(30)?;
        assert_eq!(rt; table.push(29), Err(Refusal::OutOfRange));
        assert_eq!(rt; table.push(30), Ok(()));
        assert_eq!(rt; table.push(1_000_000_001), Err(Refusal::OutOfRange));
        assert_eq!(rt; table.push(1_000_000_000), Ok(()));
        Ok(())
    }

    #[test]
    fn two_strokes_at_the_last_tick(rt: HostRuntime) -> Result<(), Fail> {
        let mut rule = StairOn::new(Stair::new(1, 1_000_000_000)?, OpenRule::new());
        assert_eq!(rt; rule.earliest(LAST_TICK), Ok(Some(LAST_TICK)));
        assert_eq!(rt; rule.strike(LAST_TICK), Ok(()));
        assert_eq!(rt; rule.earliest(LAST_TICK), Ok(None));
        assert_eq!(rt; rule.strike(LAST_TICK), Err(Refusal::NotAllowed));
        assert_eq!(rt; rule.strike(LAST_TICK + 1), Err(Refusal::PastLastTick));
        assert_eq!(rt; rule.earliest(LAST_TICK + 1), Err(Refusal::PastLastTick));
        assert!(rt; rule.may(LAST_TICK + 1_000_000_000));
        assert_eq!(rt; rule.reach(), 1_000_000_000);
        Ok(())
    }

    #[test]
    fn a_table_and_a_rule_that_are_passed_on_stay(rt: HostRuntime) -> Result<(), Fail> {
        let mut table = Table::new();
        table.push(10)?;
        let once = TableOn::new(table, OpenRule::new());
        let twice = TableOn::new(table, TableOn::new(table, OpenRule::new()));
        for mut rule in [once, once] {
            assert_eq!(rt; rule.strike(0), Ok(()));
            assert_eq!(rt; rule.earliest(0), Ok(Some(10)));
        }
        let mut rule = twice;
        assert_eq!(rt; rule.strike(0), Ok(()));
        assert_eq!(rt; rule.earliest(0), Ok(Some(10)));
        assert_eq!(rt; twice.earliest(0), Ok(Some(0)));
        Ok(())
    }

    #[test]
    fn a_limit_on_a_rule_that_was_struck(rt: HostRuntime) -> Result<(), Fail> {
        let mut below = StairOn::new(Stair::new(1, 100)?, OpenRule::new());
        below.strike(50)?;
        let mut table = Table::new();
        table.push(60)?;
        let mut rule = TableOn::new(table, below);
        assert_eq!(rt; rule.earliest(0), Ok(Some(150)));
        rule.strike(150)?;
        assert_eq!(rt; rule.earliest(0), Ok(Some(250)));
        Ok(())
    }

    #[test]
    fn the_audit_counts_one_bell(rt: HostRuntime) -> Result<(), Fail> {
        let requests = [
            Request { bell: 3, tick: 0 },
            Request { bell: 4, tick: 1 },
            Request { bell: 3, tick: 5 },
            Request {
                bell: 4,
                tick: 2_000_000_000_000,
            },
        ];
        let stair = Stair::new(1, 10)?;
        for (bell, refused) in [(3, Some(2)), (4, Some(2)), (5, None)] {
            let mut rule = StairOn::new(stair, OpenRule::new());
            assert_eq!(rt; audit(&requests, bell, &mut rule), refused, "bell {bell}");
        }
        let strokes = [
            Stroke {
                bell: 3,
                asked: 0,
                due: 0,
            },
            Stroke {
                bell: 3,
                asked: 5,
                due: 10,
            },
        ];
        let mut rule = StairOn::new(stair, OpenRule::new());
        assert_eq!(rt; audit(&strokes, 3, &mut rule), None);
        Ok(())
    }

    #[test]
    fn a_thirty_third_stroke_finds_no_room(rt: HostRuntime) -> Result<(), Fail> {
        let mut line = Line::new(StairOn::new(Stair::new(1, 10)?, OpenRule::new()));
        for k in 0..32 {
            assert_eq!(rt; line.request(5), Ok(5 + 10 * k));
        }
        assert_eq!(rt; line.waiting(), 32);
        assert_eq!(rt; line.request(5), Err(Refusal::Full));
        assert!(rt; line.take(5)?.is_some());
        assert_eq!(rt; line.request(5), Ok(325));
        assert_eq!(rt; line.request(5), Err(Refusal::Full));
        assert_eq!(rt; line.waiting(), 32);
        Ok(())
    }

    #[test]
    fn the_ring_goes_round(rt: HostRuntime) -> Result<(), Fail> {
        let mut line = Line::new(StairOn::new(Stair::new(3, 10)?, OpenRule::new()));
        for k in 0..200 {
            let asked = 10 * k;
            assert_eq!(rt; line.request(asked), Ok(asked));
            if k >= 20 {
                let before = asked - 200;
                let oldest = Grant {
                    asked: before,
                    due: before,
                };
                assert_eq!(rt; line.take(asked), Ok(Some(oldest)));
            }
        }
        assert_eq!(rt; line.waiting(), 20);
        Ok(())
    }

    #[test]
    fn no_tick_suits_a_second_stroke_at_the_last_tick(rt: HostRuntime) -> Result<(), Fail> {
        let mut line = Line::new(StairOn::new(Stair::new(1, 1_000_000_000)?, OpenRule::new()));
        assert_eq!(rt; line.request(LAST_TICK), Ok(LAST_TICK));
        assert_eq!(rt; line.request(LAST_TICK), Err(Refusal::NoTick));
        assert_eq!(rt; line.request(LAST_TICK + 1), Err(Refusal::PastLastTick));
        assert_eq!(rt; line.waiting(), 1);
        Ok(())
    }

    #[test]
    fn each_bell_has_a_clock_of_its_own(rt: HostRuntime) -> Result<(), Fail> {
        let left = Line::new(OpenRule::new());
        let right = Line::new(OpenRule::new());
        let mut frame = SideBySide::new(left, right);
        assert_eq!(rt; frame.request(0, 1000), Ok(1000));
        assert_eq!(rt; frame.request(1, 10), Ok(10));
        assert_eq!(rt; frame.request(0, 999), Err(Refusal::BeforeClock));
        assert_eq!(rt; frame.request(2, 1000), Err(Refusal::NoBell));
        assert_eq!(rt; frame.gap(3, 0), Err(Refusal::NoBell));
        assert_eq!(rt; frame.waiting(0), Ok(1));
        assert!(rt; frame.take(1, 20)?.is_some());
        assert_eq!(rt; frame.gap(1, LAST_TICK), Ok(Some(LAST_TICK - 10)));
        Ok(())
    }
}
