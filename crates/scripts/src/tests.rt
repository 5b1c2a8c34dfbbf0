// How lines are read: blanks and comments alike in each vocabulary, and lines that are not understood, which would end a stored run with status 1.
use crate::{Session, Vocabulary};
use std::process::Abort;
use std::test::Fail;

fn blanks_and_comments<R: AllocGlobal + Abort>(rt: &R, vocabulary: Vocabulary) -> Result<(), Fail> {
    let heap = rt.alloc();
    let mut session = Session::new(heap, vocabulary);
    let mut out = String::new(heap);
    assert!(rt; session.obey(1, " \t # modulus 5", &mut out)?);
    assert_eq!(rt; out.as_str(), "");
    assert!(rt; !session.obey(2, "  chain\t x   y # z", &mut out)?);
    assert_eq!(rt; out.as_str(), "line 2: not understood: chain x y\n");
    Ok(())
}

#[test]
fn blanks_and_comments_when_drawing(rt: HostRuntime) -> Result<(), Fail> {
    blanks_and_comments(&rt, Vocabulary::Drawing)
}

#[test]
fn blanks_and_comments_when_asking(rt: HostRuntime) -> Result<(), Fail> {
    blanks_and_comments(&rt, Vocabulary::Asking)
}

// What no vocabulary understands.
const NOT_UNDERSTOOD: &str = "\
nonsense
help me
Help
modulus
modulus 1 2
modulus +5
modulus -1
modulus 5.
modulus 18446744073709551616
chain x
chain 0 256
open
open 1 2
open x
add 1
add 1 2 3
retire
restore 1 2
retire x
steps 1
seal 1
reopen 1
size 1
records 1
plan 1
trace
trace x
trace 0 1
query
query cost
query price 0
query cost x
query cost 0 1
room
room steps
room steps 1 2
room steps x
room plan 4
room Steps 4
room steps 513
room records 262145
room heads 4097
room row 65
room weights 513
room memo 262145
room answers 65
weigh 256 cost 1
weigh 0 cost
weigh 0 cost 1 2
weigh 0 price 1
weigh 1 cost 4294967296
weigh 1 depth 256
weigh 1 reach maybe
weigh 1 marks 0x1
weigh 1 marks 1/2
weigh 1 marks 0x/0x1
weigh 1 marks 0x1/0x1/0x1
weigh 1 marks 0x1/0x+1
weigh 1 marks 0x0/0x00000000000000001
weigh 1 phase 64
weigh 1 phase 0,
weigh 1 phase 0,-
";

// Commands of asking alone.
const NOT_DRAWING: &str = "\
seal
reopen
size
records
plan
trace 0
query cost 0
room steps 4
";

fn not_understood<R: AllocGlobal + Abort>(
    rt: &R,
    vocabulary: Vocabulary,
    lines: &str,
) -> Result<(), Fail> {
    let heap = rt.alloc();
    let mut session = Session::new(heap, vocabulary);
    for line in lines.lines() {
        let mut out = String::new(heap);
        assert!(rt; !session.obey(7, line, &mut out)?);
        let expected = format!(in heap; "line 7: not understood: {line}\n")?;
        assert_eq!(rt; out.as_str(), expected.as_str());
    }
    Ok(())
}

#[test]
fn lines_that_are_not_understood_when_drawing(rt: HostRuntime) -> Result<(), Fail> {
    not_understood(&rt, Vocabulary::Drawing, NOT_UNDERSTOOD)?;
    not_understood(&rt, Vocabulary::Drawing, NOT_DRAWING)
}

#[test]
fn lines_that_are_not_understood_when_asking(rt: HostRuntime) -> Result<(), Fail> {
    not_understood(&rt, Vocabulary::Asking, NOT_UNDERSTOOD)
}
