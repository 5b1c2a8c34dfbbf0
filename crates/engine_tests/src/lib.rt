// Tests of tracing and querying a sealed network, with values worked out by hand, and each refusal at its edge, with the buffers
// compared before and after.
#![tactic(auto)]

#[cfg(test)]
mod tests {
    use algebras::{Cost, Phase};
    use expressions::{Record, Step};
    use kleene::Algebra;
    use network::{Draft, Plan, Sealed};
    use refusals::Refusal;
    use std::alloc::{AllocError, Global};
    use std::process::Abort;
    use std::test::Fail;

    // What buffers hold before they are written.
    const UNDRAWN: Step = Step {
        from: 9,
        to: 9,
        in_force: false,
    };

    const BLANK: Record = Record {
        kind: 9,
        left: 9,
        right: 9,
        next: 9,
    };

    fn record(kind: u32, left: u32, right: u32) -> Record {
        Record {
            kind,
            left,
            right,
            next: 0,
        }
    }

    // The example: two formats, with step 0 from 0 to 1, step 1 from 1 to 0 and step 2 from 1 to itself.
    const ENDS: [(usize, usize); 3] = [(0, 1), (1, 0), (1, 1)];

    // Sealing it makes records 2 to 7, and tracing it from 0 the others.
    fn made() -> [Record; 11] {
        [
            record(0, 0, 0),
            record(1, 0, 0),
            record(2, 0, 0),
            record(2, 1, 0),
            record(2, 2, 0),
            record(4, 3, 2),
            record(3, 4, 5),
            record(5, 6, 0),
            record(4, 2, 7),
            record(4, 8, 3),
            record(3, 1, 9),
        ]
    }

    // What a network is lent for sealing and tracing, and blanks in it at first.
    #[derive(Clone, PartialEq, Debug, Drop)]
    struct Buffers {
        steps: Vec<Step>,
        records: Vec<Record>,
        heads: Vec<u32>,
        row: Vec<u32>,
    }

    // What it is lent besides for a query.
    #[derive(Clone, PartialEq, Debug, Drop)]
    struct Asked<V> {
        weights: Vec<V>,
        memo: Vec<V>,
        answers: Vec<V>,
    }

    impl<V: Copy + From<u8>> Asked<V> {
        // These weights, with so many places of the memo and of the answers.
        fn new(
            heap: Global,
            weights: &[V],
            memo: usize,
            answers: usize,
        ) -> Result<Asked<V>, AllocError> {
            Ok(Asked {
                weights: weights.to_vec(heap)?,
                memo: vec![in heap; V::from(77); memo]?,
                answers: vec![in heap; V::from(77); answers]?,
            })
        }
    }

    impl Buffers {
        // Buffers of so many steps, records, heads and places of the row.
        fn new(
            heap: Global,
            steps: usize,
            records: usize,
            heads: usize,
            row: usize,
        ) -> Result<Buffers, AllocError> {
            Ok(Buffers {
                steps: vec![in heap; UNDRAWN; steps]?,
                records: vec![in heap; BLANK; records]?,
                heads: vec![in heap; 9; heads]?,
                row: vec![in heap; 77; row]?,
            })
        }

        fn seal(&mut self, draft: Draft, plan: &mut Plan) -> Result<Sealed, Fail> {
            let sealed = draft.seal(
                self.steps.as_slice(),
                self.records.as_mut_slice(),
                self.heads.as_mut_slice(),
                plan,
            );
            Ok(sealed.map_err(Refusal::from)?)
        }

        // Opens a network, adds steps with these ends and seals it.
        fn draw(
            &mut self,
            formats: usize,
            ends: &[(usize, usize)],
            plan: &mut Plan,
        ) -> Result<Sealed, Fail> {
            let mut draft = Draft::open(formats)?;
            for (from, to) in ends {
                draft.add(self.steps.as_mut_slice(), *from, *to)?;
            }
            self.seal(draft, plan)
        }

        fn trace(
            &mut self,
            network: &mut Sealed,
            plan: &Plan,
            source: usize,
        ) -> Result<(), Refusal> {
            engine::trace(
                network,
                self.steps.as_slice(),
                self.records.as_mut_slice(),
                self.heads.as_mut_slice(),
                self.row.as_mut_slice(),
                plan,
                source,
            )
        }

        fn query<A: Algebra>(
            &mut self,
            algebra: &A,
            asked: &mut Asked<A::Value>,
            network: &mut Sealed,
            plan: &Plan,
            source: usize,
        ) -> Result<(), Refusal> {
            engine::query(
                algebra,
                network,
                self.steps.as_slice(),
                self.records.as_mut_slice(),
                self.heads.as_mut_slice(),
                self.row.as_mut_slice(),
                asked.weights.as_slice(),
                asked.memo.as_mut_slice(),
                asked.answers.as_mut_slice(),
                plan,
                source,
            )
        }

        // Some chains have these heads.
        fn check_heads(&self, rt: &impl Abort, chains: &[(usize, u32)]) {
            for (chain, head) in chains {
                assert_eq!(rt; self.heads.get(*chain).copied(), Some(*head));
            }
        }

        // A trace of the example makes what is not there yet, and what lies past is unwritten.
        fn check_traced(
            &mut self,
            rt: &impl Abort,
            network: &mut Sealed,
            plan: &Plan,
        ) -> Result<(), Fail> {
            self.row.fill(77);
            self.trace(network, plan, 0)?;
            assert_eq!(rt; self.row.as_slice(), [10, 8, 77].as_slice());
            assert_eq!(rt; network.size(), (1, 11));
            assert_eq!(rt; self.records.len(), 12);
            assert_eq!(rt; &self.records[..11], made().as_slice());
            assert_eq!(rt; self.records[11], BLANK);
            self.check_heads(
                rt,
                &[(191, 7), (185, 8), (303, 9), (187, 10), (0, 0), (1024, 9)],
            );
            Ok(())
        }
    }

    // The number and the value of a refusal, 0 for a call that is done and for no value, as the table of refusals has them.
    fn said(res: Result<(), Refusal>) -> (usize, usize) {
        match res {
            Ok(()) => (0, 0),
            Err(refusal) => (refusal.number(), refusal.value().unwrap_or(0)),
        }
    }

    // Traced again, the network has what it had.
    #[test]
    fn traced(rt: HostRuntime) -> Result<(), Fail> {
        let mut plan = Plan::new();
        let mut lent = Buffers::new(rt.alloc(), 3, 12, 1025, 3)?;
        let mut network = lent.draw(2, &ENDS, &mut plan)?;
        lent.check_traced(&rt, &mut network, &plan)?;
        lent.check_traced(&rt, &mut network, &plan)
    }

    // Of ten records the last is refused: those made before it stand and are counted, and nothing else is written.
    #[test]
    fn full(rt: HostRuntime) -> Result<(), Fail> {
        let mut plan = Plan::new();
        let mut lent = Buffers::new(rt.alloc(), 3, 10, 1024, 2)?;
        let mut network = lent.draw(2, &ENDS, &mut plan)?;
        let mut asked = Asked::new(rt.alloc(), &[5, 7, 2], 10, 2)?;
        let queried = lent.query(&Cost, &mut asked, &mut network, &plan, 0);
        assert_eq!(rt; said(queried), (9, 10));
        assert_eq!(rt; network.size(), (1, 10));
        assert_eq!(rt; lent.records.as_slice(), &made()[..10]);
        lent.check_heads(&rt, &[(185, 8), (303, 9), (187, 0)]);
        assert_eq!(rt; said(lent.trace(&mut network, &plan, 0)), (9, 10));
        assert_eq!(rt; network.size(), (1, 10));
        assert_eq!(rt; lent.row.as_slice(), [77; 2].as_slice());
        assert_eq!(rt; asked.memo.as_slice(), [77; 10].as_slice());
        assert_eq!(rt; asked.answers.as_slice(), [77; 2].as_slice());
        Ok(())
    }

    // Costs 5, 7, 2, and phases {2}, {1}, {0} modulo 6, from format 0; the memo has the reading of each record.
    #[test]
    fn queried(rt: HostRuntime) -> Result<(), Fail> {
        let mut plan = Plan::new();
        let mut lent = Buffers::new(rt.alloc(), 3, 11, 1024, 3)?;
        let mut network = lent.draw(2, &ENDS, &mut plan)?;
        let mut asked = Asked::new(rt.alloc(), &[5, 7, 2], 12, 3)?;
        lent.query(&Cost, &mut asked, &mut network, &plan, 0)?;
        assert_eq!(rt; lent.row.as_slice(), [10, 8, 77].as_slice());
        assert_eq!(rt; asked.answers.as_slice(), [0, 5, 77].as_slice());
        assert_eq!(rt;
            asked.memo.as_slice(),
            [4294967295, 0, 5, 7, 2, 12, 2, 0, 5, 12, 0, 77].as_slice()
        );
        let mut asked = Asked::new(rt.alloc(), &[4, 2, 1], 12, 3)?;
        lent.query(&Phase::new(6)?, &mut asked, &mut network, &plan, 0)?;
        assert_eq!(rt; asked.answers.as_slice(), [9, 36, 77].as_slice());
        assert_eq!(rt;
            asked.memo.as_slice(),
            [0, 1, 4, 2, 1, 8, 9, 9, 36, 9, 9, 77].as_slice()
        );
        Ok(())
    }

    // In a small network, from a source: the row, and what phases of {4} modulo 6 answer.
    fn check_small(
        rt: &impl Abort,
        heap: Global,
        formats: usize,
        ends: &[(usize, usize)],
        source: usize,
        row: [u32; 2],
        answers: [u64; 2],
    ) -> Result<(), Fail> {
        let mut plan = Plan::new();
        let mut lent = Buffers::new(heap, 1, 4, 1024, 2)?;
        let mut network = lent.draw(formats, ends, &mut plan)?;
        let mut asked = Asked::new(heap, &[16], 4, 2)?;
        lent.query(&Phase::new(6)?, &mut asked, &mut network, &plan, source)?;
        assert_eq!(rt; lent.row.as_slice(), row.as_slice());
        assert_eq!(rt; asked.answers.as_slice(), answers.as_slice());
        Ok(())
    }

    #[test]
    fn small_networks(rt: HostRuntime) -> Result<(), Fail> {
        check_small(&rt, rt.alloc(), 1, &[], 0, [1, 77], [1, 77])?;
        check_small(&rt, rt.alloc(), 1, &[(0, 0)], 0, [3, 77], [21, 77])?;
        check_small(&rt, rt.alloc(), 2, &[(1, 0)], 1, [2, 1], [16, 1])?;
        check_small(&rt, rt.alloc(), 2, &[(1, 0)], 0, [1, 0], [1, 0])
    }

    // A network is queried, reopened, and queried without its first step, whose weight is then no member and not looked at.
    #[test]
    fn reopened(rt: HostRuntime) -> Result<(), Fail> {
        let phase = Phase::new(6)?;
        let mut plan = Plan::new();
        let mut lent = Buffers::new(rt.alloc(), 3, 12, 1024, 2)?;
        let mut network = lent.draw(2, &ENDS, &mut plan)?;
        let mut asked = Asked::new(rt.alloc(), &[4, 2, 1], 12, 2)?;
        lent.query(&phase, &mut asked, &mut network, &plan, 1)?;
        assert_eq!(rt; asked.answers.as_slice(), [18, 9].as_slice());
        asked.weights = vec![in rt.alloc(); 64, 2, 1]?;
        let queried = lent.query(&phase, &mut asked, &mut network, &plan, 1);
        assert_eq!(rt; said(queried), (8, 0));
        assert_eq!(rt; asked.answers.as_slice(), [18, 9].as_slice());
        let draft = network.reopen();
        draft.retire(lent.steps.as_mut_slice(), 0)?;
        let mut network = lent.seal(draft, &mut plan)?;
        lent.query(&phase, &mut asked, &mut network, &plan, 1)?;
        assert_eq!(rt; asked.answers.as_slice(), [2, 1].as_slice());
        lent.query(&phase, &mut asked, &mut network, &plan, 0)?;
        assert_eq!(rt; asked.answers.as_slice(), [1, 0].as_slice());
        Ok(())
    }

    // All that the example is lent, for queries in phases modulo 6 and in a store that sealing it fills.
    #[derive(Clone, PartialEq, Debug, Drop)]
    struct Lent {
        buffers: Buffers,
        asked: Asked<u64>,
    }

    // So many places of buffers 1 to 7, one too few of buffer 1 and all after it, of buffer 2 and all after it, and so on, with what a
    // trace and a query say.
    const SHORT: [([usize; 7], (usize, usize), (usize, usize)); 7] = [
        ([2, 7, 1023, 1, 2, 7, 1], (6, 1), (6, 1)),
        ([3, 7, 1023, 1, 2, 7, 1], (6, 2), (6, 2)),
        ([3, 8, 1023, 1, 2, 7, 1], (6, 3), (6, 3)),
        ([3, 8, 1024, 1, 2, 7, 1], (6, 4), (6, 4)),
        ([3, 8, 1024, 2, 2, 7, 1], (7, 1), (6, 5)),
        ([3, 8, 1024, 2, 3, 7, 1], (7, 1), (6, 6)),
        ([3, 8, 1024, 2, 3, 8, 1], (7, 1), (6, 7)),
    ];

    impl Lent {
        // The example is sealed in these buffers.
        fn new(heap: Global, plan: &mut Plan) -> Result<(Sealed, Lent), Fail> {
            let mut buffers = Buffers::new(heap, 3, 8, 1024, 2)?;
            let network = buffers.draw(2, &ENDS, plan)?;
            let asked = Asked::new(heap, &[4, 2, 1], 8, 2)?;
            Ok((network, Lent { buffers, asked }))
        }

        // The same with so many places of each buffer.
        fn cut(&self, lengths: [usize; 7]) -> Result<Lent, AllocError> {
            let mut lent = self.clone()?;
            let [steps, records, heads, row, weights, memo, answers] = lengths;
            lent.buffers.steps.truncate(steps);
            lent.buffers.records.truncate(records);
            lent.buffers.heads.truncate(heads);
            lent.buffers.row.truncate(row);
            lent.asked.weights.truncate(weights);
            lent.asked.memo.truncate(memo);
            lent.asked.answers.truncate(answers);
            Ok(lent)
        }

        // A trace and a query are refused so, and change nothing.
        fn check(
            &self,
            rt: &impl Abort,
            network: &mut Sealed,
            plan: &Plan,
            source: usize,
            traced: (usize, usize),
            queried: (usize, usize),
        ) -> Result<(), Fail> {
            let mut lent = self.clone()?;
            assert_eq!(rt; said(lent.buffers.trace(network, plan, source)), traced);
            let asked = lent
                .buffers
                .query(&Phase::new(6)?, &mut lent.asked, network, plan, source);
            assert_eq!(rt; said(asked), queried);
            assert_eq!(rt; network.size(), (1, 8));
            assert_eq!(rt; &lent, self);
            Ok(())
        }
    }

    // Writes at one place of a buffer.
    fn put<T: Drop>(places: &mut Vec<T>, at: usize, value: T) {
        if let Some(place) = places.get_mut(at) {
            *place = value;
        }
    }

    fn step(from: u32, to: u32, in_force: bool) -> Step {
        Step { from, to, in_force }
    }

    // Each refusal at its edge, where those that are tested later apply too: everything is wrong at first, and is put right in turn.
    #[test]
    fn refusals(rt: HostRuntime) -> Result<(), Fail> {
        let mut plan = Plan::new();
        let (mut network, right) = Lent::new(rt.alloc(), &mut plan)?;
        let mut lent = right.clone()?;
        put(&mut lent.buffers.steps, 2, step(1, 2, true));
        put(
            &mut lent.buffers.records,
            7,
            Record {
                next: 7,
                ..record(5, 6, 0)
            },
        );
        put(&mut lent.buffers.heads, 1023, 8);
        put(&mut lent.asked.weights, 1, 64);
        put(&mut lent.asked.weights, 2, 64);
        for (lengths, traced, queried) in SHORT {
            lent.cut(lengths)?
                .check(&rt, &mut network, &Plan::new(), 2, traced, queried)?;
        }
        lent.check(&rt, &mut network, &Plan::new(), 2, (7, 1), (7, 1))?;
        lent.buffers.steps = right.buffers.steps.clone()?;
        lent.check(&rt, &mut network, &Plan::new(), 2, (7, 2), (7, 2))?;
        lent.buffers.records = right.buffers.records.clone()?;
        lent.check(&rt, &mut network, &Plan::new(), 2, (7, 3), (7, 3))?;
        lent.buffers.heads = right.buffers.heads.clone()?;
        lent.check(&rt, &mut network, &Plan::new(), 2, (7, 8), (7, 8))?;
        lent.check(&rt, &mut network, &plan, 2, (2, 0), (2, 0))?;
        lent.check(&rt, &mut network, &plan, 1, (9, 8), (8, 1))?;
        right.check(&rt, &mut network, &plan, 1, (9, 8), (9, 8))
    }

    // More kinds of damage: a step that leaves no format, a kind that there is not, a step that is not in force, and a plan that
    // names a record past the count.
    #[test]
    fn damage(rt: HostRuntime) -> Result<(), Fail> {
        let mut plan = Plan::new();
        let (mut network, right) = Lent::new(rt.alloc(), &mut plan)?;
        let mut lent = right.clone()?;
        put(&mut lent.buffers.steps, 0, step(2, 1, true));
        lent.check(&rt, &mut network, &plan, 0, (7, 1), (7, 1))?;
        lent = right.clone()?;
        put(&mut lent.buffers.records, 7, record(6, 6, 0));
        lent.check(&rt, &mut network, &plan, 0, (7, 2), (7, 2))?;
        lent = right.clone()?;
        put(&mut lent.buffers.steps, 1, step(1, 0, false));
        lent.check(&rt, &mut network, &plan, 0, (7, 2), (7, 2))?;
        let mut other = Buffers::new(rt.alloc(), 4, 11, 1024, 2)?;
        other.draw(2, &[(0, 1), (1, 0), (1, 1), (0, 0)], &mut plan)?;
        right.check(&rt, &mut network, &plan, 0, (7, 8), (7, 8))
    }
}
