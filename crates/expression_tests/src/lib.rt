// Tests of the expression store, with values worked out by hand.
#![tactic(auto)]

#[cfg(test)]
mod tests {
    use algebras::{Cost, Depth, Marking, Marks, Phase, Reach};
    use expressions::{Record, Step, Store, heads_sound, read, records_sound};
    use kleene::Algebra;
    use refusals::Refusal;
    use std::test::Fail;

    fn entry(kind: u32, left: u32, right: u32, next: u32) -> Record {
        Record {
            kind,
            left,
            right,
            next,
        }
    }

    // Records by kind, left and right, of which each is alone in its chain.
    macro_rules! table {
        ($(($kind:literal, $left:literal, $right:literal)),*) => {
            [$(Record { kind: $kind, left: $left, right: $right, next: 0 }),*]
        };
    }

    // Two formats, with step 0 from 0 to 1, step 1 from 1 to 0 and step 2 from 1 to itself: sealing makes the three steps,
    // then(3, 2), sum(4, 5) and repeat(6), and tracing from 0 adds then(2, 7), then(8, 3) and sum(1, 9).
    const EXAMPLE: [Record; 11] = table![
        (0, 0, 0),
        (1, 0, 0),
        (2, 0, 0),
        (2, 1, 0),
        (2, 2, 0),
        (4, 3, 2),
        (3, 4, 5),
        (5, 6, 0),
        (4, 2, 7),
        (4, 8, 3),
        (3, 1, 9)
    ];

    fn make_example(store: &mut Store) -> Result<u32, Refusal> {
        let a = store.step(0)?;
        let b = store.step(1)?;
        let c = store.step(2)?;
        let ba = store.then(b, a)?;
        let loops = store.sum(c, ba)?;
        let around = store.repeat(loops)?;
        let there = store.then(a, around)?;
        let back = store.then(there, b)?;
        store.sum(1, back)
    }

    #[test]
    fn records_of_the_example(rt: HostRuntime) {
        let blank = entry(9, 9, 9, 9);
        let mut records = [blank; 12];
        let mut heads = [9; 1025];
        let mut store = Store::cleared(&mut records, &mut heads);
        assert_eq!(rt; make_example(&mut store), Ok(10));
        assert_eq!(rt; store.count, 11);
        assert_eq!(rt; &records[..11], EXAMPLE.as_slice());
        // what lies past the count and past the chains is unwritten
        assert_eq!(rt; records.last().copied(), Some(blank));
        assert_eq!(rt; heads.last().copied(), Some(9));
        for (chain, head) in [
            (2, 2),
            (33, 3),
            (64, 4),
            (131, 5),
            (212, 6),
            (191, 7),
            (185, 8),
            (303, 9),
            (187, 10),
            (0, 0),
            (1023, 0),
        ] {
            assert_eq!(rt; heads.get(chain).copied(), Some(head));
        }
    }

    // Costs 5, 7, 2; depths 10, 12, 8; and so on: the reading of each record.
    #[test]
    fn readings_of_the_example(rt: HostRuntime) {
        let mut reach = [false; 12];
        read(&Reach, &[true, false, true], &EXAMPLE, &mut reach);
        assert_eq!(rt;
            reach,
            [
                false, true, true, false, true, false, true, true, true, false, true, false
            ]
        );
        let mut cost = [77; 12];
        read(&Cost, &[5, 7, 2], &EXAMPLE, &mut cost);
        assert_eq!(rt; cost, [4294967295, 0, 5, 7, 2, 12, 2, 0, 5, 12, 0, 77]);
        let mut depth = [77; 12];
        read(&Depth, &[10, 12, 8], &EXAMPLE, &mut depth);
        assert_eq!(rt; depth, [0, 255, 10, 12, 8, 10, 10, 255, 10, 10, 255, 77]);
    }

    #[test]
    fn sets_read_of_the_example(rt: HostRuntime) -> Result<(), Fail> {
        let mut marks = [None; 11];
        let weights = [
            pair(1, 0xfffffffffffffffe),
            pair(4, 0xfffffffffffffff9),
            pair(0, 0xfffffffffffffff7),
        ];
        read(&Marks, &weights, &EXAMPLE, &mut marks);
        assert_eq!(rt; marks[5], pair(5, 0xfffffffffffffff8));
        assert_eq!(rt; marks[7], pair(5, 0xfffffffffffffffa));
        assert_eq!(rt; marks[10], pair(5, 0xfffffffffffffffa));
        let mut phases = [77; 12];
        read(&Phase::new(6)?, &[4, 2, 1], &EXAMPLE, &mut phases);
        assert_eq!(rt; phases, [0, 1, 4, 2, 1, 8, 9, 9, 36, 9, 9, 77]);
        Ok(())
    }

    fn pair(sets: u64, passes: u64) -> Option<Marking> {
        Some(Marking { sets, passes })
    }

    // Steps 0 and 1,024 are in one chain: the later is its head, and both are found again.
    #[test]
    fn two_records_in_one_chain(rt: HostRuntime) {
        let mut records = [entry(9, 9, 9, 9); 4];
        let mut heads = [9; 1024];
        let mut store = Store::cleared(&mut records, &mut heads);
        assert_eq!(rt; store.step(0), Ok(2));
        assert_eq!(rt; store.step(1024), Ok(3));
        assert_eq!(rt; store.step(0), Ok(2));
        assert_eq!(rt; store.step(1024), Ok(3));
        assert_eq!(rt; store.step(5), Err(Refusal::StoreFull(4)));
        assert_eq!(rt; store.count, 4);
        assert_eq!(rt; records.last().copied(), Some(entry(2, 1024, 0, 2)));
        assert_eq!(rt; heads.get(2).copied(), Some(3));
    }

    // Eleven records suffice for the example; of ten the last is refused, and what was made before stands.
    #[test]
    fn full_stores(rt: HostRuntime) {
        let mut records = [entry(9, 9, 9, 9); 11];
        let mut heads = [9; 1024];
        let mut store = Store::cleared(&mut records, &mut heads);
        assert_eq!(rt; make_example(&mut store), Ok(10));
        // once it is cleared, there is room for the same again
        store.clear();
        assert_eq!(rt; store.count, 2);
        assert_eq!(rt; make_example(&mut store), Ok(10));
        let mut fewer = [entry(9, 9, 9, 9); 10];
        let mut store = Store::cleared(&mut fewer, &mut heads);
        assert_eq!(rt; make_example(&mut store), Err(Refusal::StoreFull(10)));
        assert_eq!(rt; store.count, 10);
        assert_eq!(rt; fewer.last().copied(), Some(entry(4, 8, 3, 0)));
    }

    // A record at place 3, whether it is sound there: each rule of the layout at its edge. Step 1 is retired.
    #[test]
    fn damage(rt: HostRuntime) {
        let steps = [step(true), step(false)];
        let rows = [
            (entry(2, 0, 0, 0), true),
            (entry(2, 0, 0, 2), true),
            (entry(2, 0, 0, 3), false),
            (entry(2, 0, 1, 0), false),
            (entry(2, 1, 0, 0), false),
            (entry(2, 2, 0, 0), false),
            (entry(3, 2, 2, 0), true),
            (entry(3, 3, 2, 0), false),
            (entry(4, 0, 3, 0), false),
            (entry(4, 2, 1, 0), true),
            (entry(5, 2, 0, 0), true),
            (entry(5, 2, 1, 0), false),
            (entry(5, 3, 0, 0), false),
            (entry(0, 0, 0, 0), false),
            (entry(1, 0, 0, 0), false),
            (entry(6, 0, 0, 0), false),
        ];
        for (last, sound) in rows {
            let records = [
                entry(0, 0, 0, 0),
                entry(1, 0, 0, 0),
                entry(2, 0, 0, 0),
                last,
            ];
            assert_eq!(rt; records_sound(&steps, &records), sound);
        }
        assert!(rt; !records_sound(&steps, &[entry(0, 0, 0, 0), entry(1, 0, 0, 1)]));
        assert!(rt; !records_sound(&steps, &[entry(1, 0, 0, 0)]));
        assert!(rt; heads_sound(4, &[0, 3]) && !heads_sound(4, &[0, 4]));
    }

    fn step(in_force: bool) -> Step {
        Step {
            from: 0,
            to: 0,
            in_force,
        }
    }
}
