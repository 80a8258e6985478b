use crate::Card;
use std::alloc::Global;
use std::process::Abort;
use std::test::Fail;
use tool::{Program, Stop};

// An image of 64 blocks. The first of them begin with these bytes, and all else is zero.
fn image_of(heap: Global, blocks: &[&[u8]]) -> Result<Vec<u8>, Fail> {
    let mut image = Vec::new(heap);
    let mut end = 0usize;
    for bytes in blocks {
        end = end.saturating_add(256);
        image.extend_from_slice(bytes)?;
        image.resize(end, 0)?;
    }
    image.resize(16384, 0)?;
    Ok(image)
}

fn expect(
    rt: &impl Abort,
    heap: Global,
    image: &[u8],
    taken: bool,
    text: &[u8],
) -> Result<(), Fail> {
    match Card.judge(heap, image) {
        Ok(printed) => {
            assert!(rt; taken);
            assert_eq!(rt; printed.as_slice(), text);
        }
        Err(Stop::Refused(printed)) => {
            assert!(rt; !taken);
            assert_eq!(rt; printed.as_slice(), text);
        }
        Err(_other) => assert!(rt; false, "the program failed"),
    }
    Ok(())
}

const SIZES: [(usize, &[u8]); 7] = [
    (0, b"refused 14 0\n"),
    (1, b"refused 14 1\n"),
    (16383, b"refused 14 64\n"),
    (16128, b"refused 14 63\n"),
    (16385, b"refused 14 65\n"),
    (1048832, b"refused 14 4097\n"),
    (1048576, b"refused 15\n"),
];

#[test]
fn refuses_sizes(rt: HostRuntime) -> Result<(), Fail> {
    let heap = rt.alloc();
    for (size, text) in SIZES {
        let image = vec![in heap; 0u8; size]?;
        expect(&rt, heap, image.as_slice(), false, text)?;
    }
    Ok(())
}

const REFUSED: [(&[&[u8]], &[u8]); 4] = [
    (&[], b"refused 15\n"),
    // the checkpoint is missing
    (&[b"", b"\x01\x01\x00\xd0\x0f"], b"refused 16 0 0 2\n"),
    // the checkpoint's block holds an older page
    (
        &[b"\x03\x00\xd0\x0f", b"\x01\x41\x00\xd0\x0f"],
        b"refused 16 64 0 3\n",
    ),
    // a ticket before the next position
    (
        &[b"\x03\x00\xd1\x0f", b"\x01\x01\x00\xd0\x0f"],
        b"refused 16 1 1 4\n",
    ),
];

#[test]
fn refuses_journals(rt: HostRuntime) -> Result<(), Fail> {
    let heap = rt.alloc();
    for (blocks, text) in REFUSED {
        let image = image_of(heap, blocks)?;
        expect(&rt, heap, image.as_slice(), false, text)?;
    }
    Ok(())
}

#[test]
fn shows_a_journal(rt: HostRuntime) -> Result<(), Fail> {
    let heap = rt.alloc();
    let image = image_of(
        heap,
        &[
            b"\x03\x00\xd0\x0f",
            b"\x01\x01\x3e\xd0\x0f",
            b"\x01\x02\x3f\xd0\x0f",
            b"\x02\x03\x3e\xd0\x0f\xff\x01",
        ],
    )?;
    expect(
        &rt,
        heap,
        image.as_slice(),
        true,
        b"page 0 format\npage 1 start 62 2000\npage 2 start 63 2000\npage 3 done 62 2000 255\n\
        top 3\nnext 2001 0\nopen 63 2000\n",
    )
}
