// Tests of drawing and sealing a network, with values worked out by hand: what sealing makes, and each refusal at its edge,
// with the buffers compared before and after.
#![tactic(auto)]

#[cfg(test)]
mod tests {
    use expressions::{Record, Step};
    use network::{Draft, NotSealed, Plan, Sealed};
    use refusals::Refusal;
    use std::alloc::{AllocError, Global};
    use std::process::Abort;
    use std::test::Fail;

    // As in the other crates of tests: a crate of fixtures would be public functions that are made for tests.
    fn step(from: u32, to: u32, in_force: bool) -> Step {
        Step { from, to, in_force }
    }

    // The number of a refusal, 0 for a call that is done: so each expected value is one number, as the table of refusals has it.
    fn number(res: Result<Draft, Refusal>) -> usize {
        res.err().map_or(0, |refusal| refusal.number())
    }

    #[test]
    fn formats(rt: HostRuntime) {
        assert_eq!(rt; (number(Draft::open(0)), number(Draft::open(1))), (1, 0));
        assert_eq!(rt; (number(Draft::open(32)), number(Draft::open(33))), (0, 1));
    }

    fn add_all(rt: &impl Abort, draft: &mut Draft, steps: &mut [Step]) {
        for j in 0..256usize {
            assert_eq!(rt; draft.add(steps, 1, 0), Ok(j));
        }
        assert_eq!(rt; draft.add(steps, 1, 0), Err(Refusal::StepsFull));
    }

    // The 256th step has number 255, and the next is refused.
    #[test]
    fn many_steps(rt: HostRuntime) -> Result<(), Fail> {
        let mut draft = Draft::open(2)?;
        let mut steps = [step(9, 9, false); 300];
        add_all(&rt, &mut draft, &mut steps);
        assert_eq!(rt; steps.get(255).copied(), Some(step(1, 0, true)));
        assert_eq!(rt; steps.get(256).copied(), Some(step(9, 9, false)));
        Ok(())
    }

    // The order of the checks, and what a refusal leaves.
    #[test]
    fn refusals(rt: HostRuntime) -> Result<(), Fail> {
        let mut draft = Draft::open(2)?;
        let mut steps = [step(9, 9, false); 1];
        assert_eq!(rt; draft.add(&mut steps, 0, 2), Err(Refusal::NoSuchFormat));
        assert_eq!(rt; draft.add(&mut steps, 2, 0), Err(Refusal::NoSuchFormat));
        assert_eq!(rt; steps, [step(9, 9, false)]);
        assert_eq!(rt; draft.add(&mut steps, 0, 1), Ok(0));
        assert_eq!(rt; draft.add(&mut steps, 0, 2), Err(Refusal::NoSuchFormat));
        assert_eq!(rt; draft.add(&mut steps, 0, 1), Err(Refusal::StepsFull));
        assert_eq!(rt; draft.retire(&mut steps, 1), Err(Refusal::NoSuchStep));
        assert_eq!(rt; draft.restore(&mut steps, 0), Err(Refusal::AlreadySo));
        assert_eq!(rt; steps, [step(0, 1, true)]);
        assert_eq!(rt; draft.retire(&mut steps, 0), Ok(()));
        assert_eq!(rt; draft.retire(&mut steps, 0), Err(Refusal::AlreadySo));
        assert_eq!(rt; steps, [step(0, 1, false)]);
        assert_eq!(rt; draft.restore(&mut steps, 0), Ok(()));
        assert_eq!(rt; steps, [step(0, 1, true)]);
        let mut short: [Step; 0] = [];
        let refusal = draft.add(&mut short, 9, 9).err();
        assert_eq!(rt;
            refusal.map(|r| (r.number(), r.value())),
            Some((6, Some(1)))
        );
        Ok(())
    }

    fn record(kind: u32, left: u32, right: u32, next: u32) -> Record {
        Record {
            kind,
            left,
            right,
            next,
        }
    }

    // What buffers hold before they are written.
    const BLANK: Record = Record {
        kind: 9,
        left: 9,
        right: 9,
        next: 9,
    };

    // The example: two formats, with step 0 from 0 to 1, step 1 from 1 to 0 and step 2 from 1 to itself.
    const ENDS: [(usize, usize); 3] = [(0, 1), (1, 0), (1, 1)];

    // The records that sealing it makes.
    fn made() -> [Record; 8] {
        [
            record(0, 0, 0, 0),
            record(1, 0, 0, 0),
            record(2, 0, 0, 0),
            record(2, 1, 0, 0),
            record(2, 2, 0, 0),
            record(4, 3, 2, 0),
            record(3, 4, 5, 0),
            record(5, 6, 0, 0),
        ]
    }

    // The heads of its chains: each record past 0 and 1 is alone in its chain.
    const EXAMPLE_HEADS: [(usize, u32); 6] = [
        (2, 2),
        (33, 3),
        (64, 4),
        (131, 5),
        (212, 6),
        (191, 7),
    ];

    // What a network is lent for sealing.
    #[derive(Drop)]
    struct Buffers {
        steps: Vec<Step>,
        records: Vec<Record>,
        heads: Vec<u32>,
        plan: Plan,
    }

    impl Buffers {
        // Buffers of so many steps, records and heads.
        fn new(
            heap: Global,
            steps: usize,
            records: usize,
            heads: usize,
        ) -> Result<Buffers, AllocError> {
            Ok(Buffers {
                steps: vec![in heap; step(9, 9, false); steps]?,
                records: vec![in heap; BLANK; records]?,
                heads: vec![in heap; 9; heads]?,
                plan: Plan::new(),
            })
        }

        fn draw(&mut self, formats: usize, ends: &[(usize, usize)]) -> Result<Draft, Fail> {
            let mut draft = Draft::open(formats)?;
            for (from, to) in ends {
                draft.add(self.steps.as_mut_slice(), *from, *to)?;
            }
            Ok(draft)
        }

        fn seal(&mut self, draft: Draft) -> Result<Sealed, NotSealed> {
            draft.seal(
                self.steps.as_slice(),
                self.records.as_mut_slice(),
                self.heads.as_mut_slice(),
                &mut self.plan,
            )
        }

        fn sealed(&mut self, draft: Draft) -> Result<Sealed, Fail> {
            Ok(self.seal(draft).map_err(Refusal::from)?)
        }

        // The draft that sealing gave back, and with which number and value.
        fn refused(&mut self, draft: Draft) -> Result<(Draft, (usize, Option<usize>)), Fail> {
            match self.seal(draft) {
                Ok(_) => Err(Fail::new("the draft was sealed")),
                Err(NotSealed { draft, refusal }) => Ok((
                    draft,
                    (refusal.number(), refusal.value()),
                )),
            }
        }

        // Some chains have these heads, and every other is empty.
        fn check_heads(&self, rt: &impl Abort, chains: &[(usize, u32)]) {
            for (chain, head) in self.heads.iter().enumerate() {
                let wanted = chains.iter().find(|(at, _)| *at == chain);
                assert_eq!(rt; *head, wanted.map_or(0, |(_, head)| *head));
            }
        }

        // The expressions of two formats, row by row.
        fn check_table(&self, rt: &impl Abort, table: [u32; 4]) {
            let plan = &self.plan;
            assert_eq!(rt;
                [
                    plan.entry(0, 0),
                    plan.entry(0, 1),
                    plan.entry(1, 0),
                    plan.entry(1, 1)
                ],
                table
            );
        }

        // The order of the formats, and the component of each.
        fn check_order(&self, rt: &impl Abort, order: &[u32], component: &[u32]) {
            assert_eq!(rt; self.plan.order(), order);
            assert_eq!(rt; self.plan.component(), component);
        }
    }

    // Eight records suffice for the example; of seven the last is refused, and the plan is as before.
    #[test]
    fn example(rt: HostRuntime) -> Result<(), Fail> {
        let mut lent = Buffers::new(rt.alloc(), 3, 7, 1024)?;
        let draft = lent.draw(2, &ENDS)?;
        let (draft, refusal) = lent.refused(draft)?;
        assert_eq!(rt; refusal, (9, Some(7)));
        assert_eq!(rt; draft.step_count(), 3);
        assert_eq!(rt; lent.records.as_slice(), &made()[..7]);
        lent.check_heads(&rt, &EXAMPLE_HEADS[..5]);
        lent.check_order(&rt, &[], &[]);
        lent.check_table(&rt, [0, 0, 0, 0]);
        lent.records = vec![in rt.alloc(); BLANK; 8]?;
        let network = lent.sealed(draft)?;
        assert_eq!(rt; network.size(), (1, 8));
        assert_eq!(rt; lent.records.as_slice(), made().as_slice());
        lent.check_heads(&rt, &EXAMPLE_HEADS);
        lent.check_order(&rt, &[0, 1], &[0, 0]);
        lent.check_table(&rt, [1, 2, 3, 7]);
        Ok(())
    }

    // The formats are listed by component, a step leading to a later one.
    #[test]
    fn backward(rt: HostRuntime) -> Result<(), Fail> {
        let mut lent = Buffers::new(rt.alloc(), 1, 3, 1024)?;
        let draft = lent.draw(2, &[(1, 0)])?;
        let network = lent.sealed(draft)?;
        assert_eq!(rt; network.size(), (2, 3));
        lent.check_order(&rt, &[1, 0], &[1, 0]);
        lent.check_table(&rt, [1, 0, 0, 1]);
        Ok(())
    }

    // A retired step is not made, and joins nothing.
    #[test]
    fn retired(rt: HostRuntime) -> Result<(), Fail> {
        let mut lent = Buffers::new(rt.alloc(), 2, 4, 1024)?;
        let draft = lent.draw(2, &[(0, 1), (1, 0)])?;
        draft.retire(lent.steps.as_mut_slice(), 0)?;
        let network = lent.sealed(draft)?;
        assert_eq!(rt; network.size(), (2, 3));
        assert_eq!(rt;
            past(&lent.records, 2),
            [record(2, 1, 0, 0), BLANK].as_slice()
        );
        lent.check_order(&rt, &[1, 0], &[1, 0]);
        Ok(())
    }

    // The records from this number on.
    fn past(records: &Vec<Record>, number: usize) -> &[Record] {
        records.get(number..).unwrap_or(&[])
    }

    // Steps 1 to 6 enter the component of formats 0 and 1. Then(2, 9) is in the chain of step 7, which is record 9.
    #[test]
    fn two_records_in_one_chain(rt: HostRuntime) -> Result<(), Fail> {
        let mut lent = Buffers::new(rt.alloc(), 8, 13, 1025)?;
        let draft = lent.draw(
            3,
            &[
                (1, 0),
                (2, 0),
                (2, 0),
                (2, 0),
                (2, 0),
                (2, 0),
                (2, 1),
                (0, 1),
            ],
        )?;
        let network = lent.sealed(draft)?;
        assert_eq!(rt; network.size(), (2, 12));
        assert_eq!(rt;
            past(&lent.records, 8),
            [
                record(2, 6, 0, 0),
                record(2, 7, 0, 0),
                record(4, 2, 9, 9),
                record(5, 10, 0, 0),
                BLANK
            ]
            .as_slice()
        );
        for (chain, head) in [(219, 10), (315, 11), (1024, 9)] {
            assert_eq!(rt; lent.heads.get(chain).copied(), Some(head));
        }
        lent.check_order(&rt, &[2, 0, 1], &[1, 1, 0]);
        lent.check_table(&rt, [1, 9, 2, 11]);
        Ok(())
    }

    // A network is reopened, drawn on and sealed again; where the store is full, the plan is the one before.
    #[test]
    fn again(rt: HostRuntime) -> Result<(), Fail> {
        let mut lent = Buffers::new(rt.alloc(), 4, 8, 1024)?;
        let draft = lent.draw(2, &ENDS)?;
        let mut draft = lent.sealed(draft)?.reopen();
        assert_eq!(rt; draft.add(lent.steps.as_mut_slice(), 0, 0), Ok(3));
        let (draft, refusal) = lent.refused(draft)?;
        assert_eq!(rt; refusal, (9, Some(8)));
        assert_eq!(rt;
            past(&lent.records, 5),
            [record(2, 3, 0, 0), record(5, 5, 0, 0), record(4, 3, 6, 0)].as_slice()
        );
        lent.check_table(&rt, [1, 2, 3, 7]);
        lent.records = vec![in rt.alloc(); BLANK; 11]?;
        let network = lent.sealed(draft)?;
        assert_eq!(rt; network.size(), (1, 11));
        assert_eq!(rt;
            past(&lent.records, 8),
            [record(4, 7, 2, 0), record(3, 4, 8, 0), record(5, 9, 0, 0)].as_slice()
        );
        lent.check_table(&rt, [6, 2, 7, 10]);
        Ok(())
    }

    // Each refusal at its edge, where those that are tested later apply too: it changes neither plan nor buffers. A retired step can be
    // damaged like any other.
    #[test]
    fn seal_refusals(rt: HostRuntime) -> Result<(), Fail> {
        let mut lent = Buffers::new(rt.alloc(), 3, 8, 1024)?;
        let draft = lent.draw(2, &ENDS)?;
        let mut draft = lent.sealed(draft)?.reopen();
        let right = lent.steps.clone()?;
        let short = [step(2, 0, true), step(2, 0, true)];
        let from = [step(0, 1, true), step(1, 0, true), step(2, 1, true)];
        let to = [step(0, 1, true), step(1, 2, false), step(1, 1, true)];
        // steps, so many records and heads, number and value
        let rows = [
            (short.as_slice(), 1, 1023, (6, 1)),
            (from.as_slice(), 1, 1023, (6, 2)),
            (from.as_slice(), 2, 1023, (6, 3)),
            (from.as_slice(), 2, 1024, (7, 1)),
            (to.as_slice(), 2, 1024, (7, 1)),
        ];
        for (steps, records, heads, (number, value)) in rows {
            lent.steps = steps.to_vec(rt.alloc())?;
            lent.records = vec![in rt.alloc(); BLANK; records]?;
            lent.heads = vec![in rt.alloc(); 9; heads]?;
            let (back, refusal) = lent.refused(draft)?;
            draft = back;
            assert_eq!(rt; refusal, (number, Some(value)));
            assert!(rt; lent.records.iter().all(|record| *record == BLANK));
            assert!(rt; lent.heads.iter().all(|head| *head == 9));
            lent.check_table(&rt, [1, 2, 3, 7]);
        }
        lent.steps = right;
        let (draft, refusal) = lent.refused(draft)?;
        assert_eq!(rt; refusal, (9, Some(2)));
        assert_eq!(rt; draft.step_count(), 3);
        Ok(())
    }
}
