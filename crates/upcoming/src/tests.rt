use crate::Upcoming;
use std::alloc::Global;
use std::process::Abort;
use std::test::Fail;
use tool::{Program, Stop};

const REFUSED: [(&[u8], &[u8]); 19] = [
    // the script ends too soon
    (b"", b"refused 24 1\n"),
    (b"zone 0 60\n5000 6000", b"refused 24 2\n"),
    (b"zone 0 60\n5000 6000\n", b"refused 24 3\n"),
    (b"5000 6000\ncrontab", b"refused 24 2\n"),
    // a line is not as it should be, or not in its place
    (b"zone 0 60\n\n5000 6000\ncrontab\n", b"refused 24 2\n"),
    (b"zone 0  60\n5000 6000\ncrontab\n", b"refused 24 1\n"),
    (b"zone 0 --60\n5000 6000\ncrontab\n", b"refused 24 1\n"),
    (b"zone -0 60\n5000 6000\ncrontab\n", b"refused 24 1\n"),
    (b"zone 0 -\n5000 6000\ncrontab\n", b"refused 24 1\n"),
    (b"5000 6000 \ncrontab\n", b"refused 24 1\n"),
    (b"5000 6000\nzone 0 60\ncrontab\n", b"refused 24 2\n"),
    // the script comes before the table, the table before the crontab, and that before the span
    (b"zone 0 901\n5000 6000\ncrontabs\n", b"refused 24 3\n"),
    (b"5000 6000\ncrontab\n0 0 * * *\n", b"refused 11 0\n"),
    (
        b"zone 0 60\nzone 4294970000 0\n5000 6000\ncrontab\n",
        b"refused 11 1\n",
    ),
    (
        b"zone 0 -99999999999999999999\n5000 6000\ncrontab\n",
        b"refused 11 0\n",
    ),
    (
        b"zone 0 60\n0 6000\ncrontab\n* 1,24 * * * x\n",
        b"refused 6 1 5 2\n",
    ),
    (
        b"zone 0 60\n0 6000\ncrontab\n\n0 0 * * *\n",
        b"refused 8 2 10\n",
    ),
    (b"zone 0 60\n01999 6000\ncrontab\n", b"refused 13 1999\n"),
    (
        b"zone 0 60\n2000 99999999999999999999\ncrontab\n",
        b"refused 13 18446744073709551615\n",
    ),
];

fn expect(
    rt: &impl Abort,
    heap: Global,
    script: &[u8],
    taken: bool,
    text: &[u8],
) -> Result<(), Fail> {
    match Upcoming.judge(heap, script) {
        Ok(printed) => {
            assert!(rt; taken);
            assert_eq!(rt; printed.as_slice(), text);
        }
        Err(Stop::Refused(printed)) => {
            assert!(rt; !taken);
            assert_eq!(rt; printed.as_slice(), text);
        }
        Err(_other) => assert!(rt; false, "the program failed"),
    }
    Ok(())
}

#[test]
fn refuses_by_number(rt: HostRuntime) -> Result<(), Fail> {
    for (script, text) in REFUSED {
        expect(&rt, rt.alloc(), script, false, text)?;
    }
    Ok(())
}

#[test]
fn takes_the_ends_of_the_span(rt: HostRuntime) -> Result<(), Fail> {
    let heap = rt.alloc();
    // in autumn 02:30 comes twice, and the line is due at the first
    expect(
        &rt,
        heap,
        b"zone 000 60\nzone 29054940 120\nzone 29357340 60\n29357310 29357370\ncrontab\n30 2 * * * x",
        true,
        b"0 29357310 2025-10-26 02:30\ndue 1\n",
    )?;
    expect(
        &rt,
        heap,
        b"zone 0 -0\n2000 2000\ncrontab\n* * * * * x\n20 9 2 1 * y\n21 * * * * z\n",
        true,
        b"0 2000 1970-01-02 09:20\n1 2000 1970-01-02 09:20\ndue 2\n",
    )?;
    expect(
        &rt,
        heap,
        b"zone 0 0\n2001 2000\ncrontab\n* * * * * x\n",
        true,
        b"due 0\n",
    )
}
