use crate::CheckCrontab;
use std::alloc::Global;
use std::process::Abort;
use std::test::Fail;
use tool::{Program, Stop};

const REFUSED: [(&[u8], &[u8]); 8] = [
    (
        b"* * * * * say\x07 so\n",
        b"refused 3 line 1 column 14\n* * * * * say? so\n             ^\n\
        This is a control byte; only tab and bytes from 32 on are taken.\n",
    ),
    (
        b"# shorthand\n@daily run\n",
        b"refused 5 line 2 column 1 field 1\n@daily run\n^\n\
        This is no element of the minute field; it takes *, */n, a, a-b and a-b/n with numbers of one or two digits.\n",
    ),
    (
        b"0 0 1 jan,foo * run",
        b"refused 5 line 1 column 11 field 4\n0 0 1 jan,foo * run\n          ^\n\
        This is no element of the month field; it takes *, */n, a, a-b and a-b/n with numbers of one or two digits, \
        or a name of three letters, as jan.\n",
    ),
    (
        b"0\t0 * * mon-fri run\n",
        b"refused 5 line 1 column 9 field 5\n0\t0 * * mon-fri run\n \t      ^\n\
        This is no element of the weekday field; it takes *, */n, a, a-b and a-b/n with numbers of one or two digits, \
        or a name of three letters, as mon.\n",
    ),
    (
        b"0 1,24 * * * run\n",
        b"refused 6 line 1 column 5 field 2\n0 1,24 * * * run\n    ^\n\
        A number is out of range; the hour field takes 0 to 23.\n",
    ),
    (
        b"0 0 * * 8 run\n",
        b"refused 6 line 1 column 9 field 5\n0 0 * * 8 run\n        ^\n\
        A number is out of range; the weekday field takes 0 to 7, and 7 is Sunday as 0 is.\n",
    ),
    (
        b"\n\n0 0 31-1 * * run\n",
        b"refused 7 line 3 column 5 field 3\n0 0 31-1 * * run\n    ^\n\
        The range runs backwards or its step is 0; write the smaller number first and a step from 1.\n",
    ),
    (
        b"0 0 * * *\n",
        b"refused 8 line 1 column 10\n0 0 * * *\n         ^\n\
        A field or the command is missing; a job line has five fields and a command.\n",
    ),
];

fn expect_refused(rt: &impl Abort, heap: Global, file: &[u8], text: &[u8]) -> Result<(), Fail> {
    match CheckCrontab.judge(heap, file) {
        Err(Stop::Refused(printed)) => assert_eq!(rt; printed.as_slice(), text),
        Err(_other) => assert!(rt; false, "the program failed"),
        Ok(_text) => assert!(rt; false, "the file is taken"),
    }
    Ok(())
}

#[test]
fn says_what_is_wrong(rt: HostRuntime) -> Result<(), Fail> {
    for (file, text) in REFUSED {
        expect_refused(&rt, rt.alloc(), file, text)?;
    }
    Ok(())
}

#[test]
fn says_what_is_too_much(rt: HostRuntime) -> Result<(), Fail> {
    let heap = rt.alloc();
    let file = vec![in heap; b'\n'; 16385]?;
    expect_refused(
        &rt,
        heap,
        file.as_slice(),
        b"refused 1\nThe file is longer than 16,384 bytes, the most that is taken.\n",
    )?;

    let line = vec![in heap; b'#'; 1001]?;
    let blanks = vec![in heap; b' '; 1000]?;
    let mut text = b"refused 2 line 1 column 1001\n".to_vec(heap)?;
    text.extend_from_slice(line.as_slice())?;
    text.push(b'\n')?;
    text.extend_from_slice(blanks.as_slice())?;
    text.extend_from_slice(b"^\nThe line is longer than 1,000 bytes, the most that is taken.\n")?;
    expect_refused(&rt, heap, line.as_slice(), text.as_slice())?;

    let mut jobs = Vec::new(heap);
    for _ in 0..65 {
        jobs.extend_from_slice(b"* * * * * run\n")?;
    }
    expect_refused(
        &rt,
        heap,
        jobs.as_slice(),
        b"refused 4 line 65 column 1\n* * * * * run\n^\nThis is a 65th job line; a file has at most 64.\n",
    )
}

#[test]
fn lists_the_jobs(rt: HostRuntime) -> Result<(), Fail> {
    let judged = CheckCrontab.judge(
        rt.alloc(),
        b"# a byte that is no text\n30 7 *,9 2-4/2 6,7 echo \xff\n",
    );
    let text =
        b"job 0 line 2\n  minute  30\n  hour    7\n  day     1-31 (*)\n  month   2,4\n  weekday 0,6\n\
        \x20 command echo \xff\ntaken 1\n";
    match judged {
        Ok(printed) => assert_eq!(rt; printed.as_slice(), text.as_slice()),
        Err(_stop) => assert!(rt; false, "the file is not taken"),
    }
    Ok(())
}
