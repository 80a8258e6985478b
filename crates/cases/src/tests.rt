use crate::{Program, judge};
use std::alloc::Global;
use std::io;
use std::io::Write;
use std::test::Fail;

// Answers each question with itself, and shows two bytes of an answer.
struct Echo;

impl Program for Echo {
    fn label(&self) -> &str {
        "echo "
    }

    fn answer(&self, _heap: Global, out: &mut Vec<u8>, question: &str) -> io::Result<()> {
        out.write_all(question.as_bytes())
    }

    fn shown<'a>(&self, answer: &'a [u8]) -> &'a [u8] {
        answer.get(0..2).unwrap_or(answer)
    }
}

#[test]
fn tells_the_answers_that_differ(rt: HostRuntime) -> Result<(), Fail> {
    let heap = rt.alloc();
    let mut out = Vec::new(heap);
    let tally = judge(heap, &mut out, &Echo, "a -> a\nabc -> abd\nb -> c\n -> \n")?;
    assert_eq!(rt;
        out.as_slice(),
        b"echo case 2: expected ab got ab\necho case 3: expected c got b\n".as_slice()
    );
    let report = format!(in heap; "{tally}")?;
    assert_eq!(rt; report.as_str(), "cases 4 differ 2");
    Ok(())
}

#[test]
fn a_line_without_an_answer_is_no_case(rt: HostRuntime) -> Result<(), Fail> {
    let heap = rt.alloc();
    let mut out = Vec::new(heap);
    assert!(rt; judge(heap, &mut out, &Echo, "a -> a\na\n").is_err());
    Ok(())
}
