// The layout and the texts on examples, so that a slip in a definition shows too.
use crate::files::{Commands, command_at};
use crate::text::{put_answer, put_ledger};
use command::{Changes, Command, Refusal};
use std::test::Fail;
use visit::{Line, Visit};

// Every byte differs, so that no two fields can be exchanged unseen.
const READING: [u8; 21] =
    *b"\x00\x01\x02\x03\x04\x05\x06\x07\x08\x09\x0a\x0b\x0c\x0d\x0e\x0f\x10\x11\x12\x13\x14";

const WATERMARK: [u8; 9] = *b"\x01\xff\xff\xff\xff\xff\xff\xff\xff";

const UNKNOWN: [u8; 21] = [2; 21];

#[test]
fn layout(rt: HostRuntime) -> Result<(), Fail> {
    // Here and below the number is the datum: every length that is too short.
    for n in 0..21 {
        assert!(rt;
            command_at(&READING[0..n], 0).is_none(),
            "a reading that ends early"
        );
    }
    for n in 0..9 {
        assert!(rt;
            command_at(&WATERMARK[0..n], 0).is_none(),
            "a watermark that ends early"
        );
    }
    assert!(rt; command_at(&UNKNOWN, 0).is_none(), "an unknown kind");
    assert!(rt; command_at(&WATERMARK, 9).is_none(), "the end");
    assert!(rt;
        command_at(&WATERMARK, usize::MAX).is_none(),
        "far past the end"
    );
    let Some((Command::Reading(e), next)) = command_at(&READING, 0) else {
        return Err(Fail::new("no reading"));
    };
    assert_eq!(rt; e.card, 0x0403_0201);
    assert_eq!(rt; e.serial, 0x0807_0605);
    assert_eq!(rt; e.time, 0x100f_0e0d_0c0b_0a09);
    assert_eq!(rt; e.amount, 0x1413_1211);
    assert_eq!(rt; next, 21);
    let Some((Command::Watermark(m), next)) = command_at(&WATERMARK, 0) else {
        return Err(Fail::new("no watermark"));
    };
    assert_eq!(rt; m, u64::MAX);
    assert_eq!(rt; next, 9);
    Ok(())
}

#[test]
fn walk(rt: HostRuntime) -> Result<(), Fail> {
    let heap = rt.alloc();
    let mut bytes = Vec::from_slice(heap, &WATERMARK)?;
    bytes.extend_from_slice(&READING)?;
    bytes.extend_from_slice(&WATERMARK[0..4])?;
    let mut found = Commands::new(bytes.as_slice());
    assert_eq!(rt; found.unread(), 34);
    assert_eq!(rt; found.next(), Some(Command::Watermark(u64::MAX)));
    assert_eq!(rt; found.unread(), 25);
    assert!(rt; found.next().is_some(), "a reading");
    assert_eq!(rt; found.unread(), 4);
    assert!(rt; found.next().is_none(), "a watermark that ends early");
    assert_eq!(rt; found.unread(), 4);
    Ok(())
}

#[test]
fn lines(rt: HostRuntime) -> Result<(), Fail> {
    let heap = rt.alloc();
    let gone = Visit {
        card: 1,
        from: 5,
        to: 12,
        count: 2,
        sum: 50,
    };
    let new = Visit {
        card: 1,
        from: 5,
        to: 20,
        count: 3,
        sum: 0,
    };
    let mut text = String::new(heap);
    let changes = Changes {
        retracted: vec![in heap; gone]?,
        added: vec![in heap; new, gone]?,
    };
    put_answer(&mut text, &Ok(changes))?;
    put_answer(&mut text, &Err(Refusal::Full(u64::MAX)))?;
    put_ledger(
        &mut text,
        &[Line {
            card: 1,
            day: 0,
            visits: 10,
            sum: 15,
        }],
    )?;
    let expected =
        "- 1 5 12 2 50\n+ 1 5 20 3 0\n+ 1 5 12 2 50\nrefused 7 at 18446744073709551615\ncard 1 day 0 visits 10 sum 15\n";
    assert_eq!(rt; text.as_str(), expected);
    Ok(())
}
