// Tables of values of each operation of the five algebras. What is expected was worked out by other code: sets by
// listing their elements, stars by adding until nothing is new.
#![tactic(auto)]

#[cfg(test)]
mod tests {
    use algebras::{Cost, Depth, Marking, Marks, Phase, Reach};
    use kleene::Algebra;
    use std::fmt::Debug;
    use std::process::Abort;
    use std::test::Fail;

    // A row of a, b, a + b, a·b.
    fn check_row<V: Copy + PartialEq + Debug, A: Algebra<Value = V>>(
        rt: &impl Abort,
        algebra: &A,
        (a, b, sum, product): (V, V, V, V),
    ) {
        assert_eq!(rt; algebra.sum(a, b), sum);
        assert_eq!(rt; algebra.product(a, b), product);
    }

    // a, b, a + b, a·b
    #[test]
    fn reach(rt: HostRuntime) {
        let rows = [
            (false, false, false, false),
            (false, true, true, false),
            (true, false, true, false),
            (true, true, true, true),
        ];
        for row in rows {
            check_row(&rt, &Reach, row);
            assert!(rt; Reach.is_member(row.0) && Reach.star(row.0));
        }
        assert_eq!(rt; (Reach.zero(), Reach.one()), (false, true));
    }

    // a, b, a + b, a·b
    #[test]
    fn cost(rt: HostRuntime) {
        let rows: [(u32, u32, u32, u32); 12] = [
            (0, 0, 0, 0),
            (0, 4294967295, 0, 4294967295),
            (4294967295, 0, 0, 4294967295),
            (4294967295, 4294967295, 4294967295, 4294967295),
            (5, 7, 5, 12),
            (7, 5, 5, 12),
            (4294967294, 1, 1, 4294967295),
            (4294967294, 2, 2, 4294967295),
            (2147483648, 2147483648, 2147483648, 4294967295),
            (2147483647, 2147483648, 2147483647, 4294967295),
            (4294967288, 7, 7, 4294967295),
            (1, 4294967294, 1, 4294967295),
        ];
        for row in rows {
            check_row(&rt, &Cost, row);
            assert_eq!(rt; Cost.star(row.0), 0);
            assert!(rt; Cost.is_member(row.0));
        }
        assert_eq!(rt; (Cost.zero(), Cost.one()), (4294967295, 0));
    }

    // a, b, a + b, a·b
    #[test]
    fn depth(rt: HostRuntime) {
        let rows: [(u8, u8, u8, u8); 9] = [
            (0, 0, 0, 0),
            (0, 255, 255, 0),
            (255, 0, 255, 0),
            (255, 255, 255, 255),
            (8, 10, 10, 8),
            (10, 8, 10, 8),
            (254, 255, 255, 254),
            (1, 0, 1, 0),
            (12, 16, 16, 12),
        ];
        for row in rows {
            check_row(&rt, &Depth, row);
            assert_eq!(rt; Depth.star(row.0), 255);
            assert!(rt; Depth.is_member(row.0));
        }
        assert_eq!(rt; (Depth.zero(), Depth.one()), (0, 255));
    }

    fn pair(sets: u64, passes: u64) -> Option<Marking> {
        Some(Marking { sets, passes })
    }

    // a, b, a + b, a·b
    #[test]
    fn marks_together(rt: HostRuntime) {
        let rows = [
            (None, None, None, None),
            (None, pair(1, 2), pair(1, 2), None),
            (pair(1, 2), None, pair(1, 2), None),
            (
                pair(0, 0xffffffffffffffff),
                pair(5, 8),
                pair(5, 0xfffffffffffffffa),
                pair(5, 8),
            ),
            (
                pair(5, 8),
                pair(0, 0xffffffffffffffff),
                pair(5, 0xfffffffffffffffa),
                pair(5, 8),
            ),
            (
                pair(3, 0xfffffffffffffffc),
                pair(8, 0xfffffffffffffff3),
                pair(0xb, 0xfffffffffffffff4),
                pair(0xb, 0xfffffffffffffff0),
            ),
            (
                pair(8, 0xfffffffffffffff3),
                pair(3, 0xfffffffffffffffc),
                pair(0xb, 0xfffffffffffffff4),
                pair(0xb, 0xfffffffffffffff0),
            ),
            (
                pair(0xff00, 0xff),
                pair(0xf0f0, 0xf0f),
                pair(0xfff0, 0xf),
                pair(0xfff0, 0xf),
            ),
            (
                pair(0xf0f0, 0xf0f),
                pair(0xff00, 0xff),
                pair(0xfff0, 0xf),
                pair(0xfff0, 0xf),
            ),
            (
                pair(0xffffffffffffffff, 0),
                pair(0, 0xffffffffffffffff),
                pair(0xffffffffffffffff, 0),
                pair(0xffffffffffffffff, 0),
            ),
            (
                pair(4, 0xfffffffffffffffb),
                pair(8, 0xfffffffffffffff3),
                pair(0xc, 0xfffffffffffffff3),
                pair(8, 0xfffffffffffffff3),
            ),
            (
                pair(8, 0xfffffffffffffff3),
                pair(4, 0xfffffffffffffffb),
                pair(0xc, 0xfffffffffffffff3),
                pair(0xc, 0xfffffffffffffff3),
            ),
            (pair(1, 1), pair(5, 8), pair(5, 8), None),
            (pair(5, 8), pair(6, 2), pair(5, 8), None),
            (
                pair(0x8000000000000000, 0x7fffffffffffffff),
                pair(1, 0xfffffffffffffffe),
                pair(0x8000000000000001, 0x7ffffffffffffffe),
                pair(0x8000000000000001, 0x7ffffffffffffffe),
            ),
            (
                pair(0xffffffffffffffff, 0xffffffffffffffff),
                pair(0xffffffffffffffff, 0xffffffffffffffff),
                None,
                None,
            ),
        ];
        for row in rows {
            check_row(&rt, &Marks, row);
        }
        assert_eq!(rt; Marks.zero(), None);
        assert_eq!(rt; Marks.one(), pair(0, 0xffffffffffffffff));
    }

    // a, whether it is a member, a*
    #[test]
    fn marks_alone(rt: HostRuntime) {
        let rows = [
            (None, true, pair(0, 0xffffffffffffffff)),
            (
                pair(0, 0xffffffffffffffff),
                true,
                pair(0, 0xffffffffffffffff),
            ),
            (pair(0, 0), true, pair(0, 0xffffffffffffffff)),
            (
                pair(0xffffffffffffffff, 0),
                true,
                pair(0xffffffffffffffff, 0),
            ),
            (
                pair(1, 0xfffffffffffffffe),
                true,
                pair(1, 0xfffffffffffffffe),
            ),
            (
                pair(8, 0xfffffffffffffff3),
                true,
                pair(8, 0xfffffffffffffff7),
            ),
            (pair(0xff00, 0xff), true, pair(0xff00, 0xffffffffffff00ff)),
            (pair(0xf0f0, 0xf0f), true, pair(0xf0f0, 0xffffffffffff0f0f)),
            (pair(3, 1), false, pair(0, 0xffffffffffffffff)),
            (
                pair(0xffffffffffffffff, 0xffffffffffffffff),
                false,
                pair(0, 0xffffffffffffffff),
            ),
            (
                pair(0x8000000000000000, 0x7fffffffffffffff),
                true,
                pair(0x8000000000000000, 0x7fffffffffffffff),
            ),
        ];
        for (a, member, star) in rows {
            assert_eq!(rt; Marks.is_member(a), member);
            assert_eq!(rt; Marks.star(a), star);
        }
    }

    // modulus, a, b, a + b, a·b
    #[test]
    fn phases_together(rt: HostRuntime) -> Result<(), Fail> {
        let rows: [(u64, u64, u64, u64, u64); 18] = [
            (1, 0, 0, 0, 0),
            (1, 1, 1, 1, 1),
            (1, 1, 2, 1, 0),
            (1, 0, 1, 1, 0),
            (6, 4, 2, 6, 8),
            (6, 0x10, 0x10, 0x10, 4),
            (6, 0x15, 0xa, 0x1f, 0x2a),
            (6, 0x20, 0x20, 0x20, 0x10),
            (6, 0x40, 2, 2, 0),
            (6, 2, 0x40, 2, 0),
            (0x18, 0x800000, 6, 0x800006, 3),
            (0x18, 0x1001, 0x40040, 0x41041, 0x40040),
            (
                0x3c,
                0x800000000000000,
                0x800000000000000,
                0x800000000000000,
                0x400000000000000,
            ),
            (0x3c, 0x800000000000001, 2, 0x800000000000003, 3),
            (
                0x3c,
                0xfffffffffffffff,
                0x80,
                0xfffffffffffffff,
                0xfffffffffffffff,
            ),
            (0x3c, 0xffffffffffffffff, 8, 8, 0),
            (0x3c, 0x1000000000000000, 8, 8, 0),
            (0x3c, 0x8000000000000000, 0x8000000000000000, 0, 0),
        ];
        for (modulus, a, b, sum, product) in rows {
            let phase = Phase::new(modulus)?;
            check_row(&rt, &phase, (a, b, sum, product));
            assert_eq!(rt; (phase.zero(), phase.one()), (0, 1));
        }
        Ok(())
    }

    // modulus, a, whether it is a member, a*
    #[test]
    fn phases_alone(rt: HostRuntime) -> Result<(), Fail> {
        let rows: [(u64, u64, bool, u64); 21] = [
            (1, 0, true, 1),
            (1, 1, true, 1),
            (1, 2, false, 1),
            (6, 0x10, true, 0x15),
            (6, 0, true, 1),
            (6, 2, true, 0x3f),
            (6, 0xc, true, 0x3f),
            (6, 9, true, 9),
            (6, 0x40, false, 1),
            (0x18, 0x200, true, 0x249249),
            (0x18, 0x10000, true, 0x10101),
            (0x18, 0x1100, true, 0x111111),
            (0x3c, 0x800000000000000, true, 0xfffffffffffffff),
            (0x3c, 0x1000000, true, 0x1001001001001),
            (0x3c, 0x101000, true, 0x111111111111111),
            (0x3c, 0x40000000, true, 0x40000001),
            (0x3c, 0x4200000000000, true, 0x84210842108421),
            (0x3c, 0x1000000000000000, false, 1),
            (0x3c, 0xffffffffffffffff, false, 1),
            (0x3b, 0x400000000000000, true, 0x7ffffffffffffff),
            (7, 1, true, 1),
        ];
        for (modulus, a, member, star) in rows {
            let phase = Phase::new(modulus)?;
            assert_eq!(rt; phase.is_member(a), member);
            assert_eq!(rt; phase.star(a), star);
        }
        Ok(())
    }

    #[test]
    fn moduli(rt: HostRuntime) -> Result<(), Fail> {
        for modulus in 1..61u64 {
            assert_eq!(rt; u64::from(Phase::new(modulus)?.modulus()), modulus);
        }
        for modulus in [0, 61, 64, 256, 18446744073709551615] {
            let refusal = Phase::new(modulus).err();
            assert_eq!(rt; refusal.map(|r| (r.number(), r.value())), Some((10, None)));
        }
        Ok(())
    }
}
