use std::test::Fail;
use term_keys::{Key, KeyReader, Move};

/// Whether the bytes give these keys and no other.
fn give(bytes: &[u8], keys: &[Key]) -> bool {
    let mut reader = KeyReader::new();
    let mut left = keys;
    for byte in bytes {
        if let Some(key) = reader.feed(*byte) {
            match left.split_first() {
                Some((first, rest)) if *first == key => left = rest,
                _ => return false,
            }
        }
    }
    left.is_empty()
}

#[test]
fn reads_what_is_typed(rt: HostRuntime) -> Result<(), Fail> {
    assert!(rt;
        give(
            b"h\xC3\xA9\t\x13\x11",
            &[
                Key::Char('h'),
                Key::Char('é'),
                Key::Char('\t'),
                Key::Save,
                Key::Quit
            ]
        )
    );
    assert!(rt;
        give(
            b"\x1B[A\x1BOB\x1B[1;2C\x1B[1;5F\x1B[3~",
            &[
                Key::Move(Move::Up),
                Key::Move(Move::Down),
                Key::Extend(Move::Right),
                Key::Move(Move::DocEnd),
                Key::DeleteForward
            ]
        )
    );
    assert!(rt;
        give(
            b"\x02\xE6\xBC\x7F\x1B[9~\r",
            &[Key::DeleteBack, Key::Newline]
        )
    );
    Ok(())
}

#[test]
fn drops_what_is_no_key(rt: HostRuntime) -> Result<(), Fail> {
    assert!(rt;
        give(
            b"\x1Ba\x1B\x1B[H\x1BO\x01\x1B[1~\x1B[4~",
            &[
                Key::Move(Move::LineStart),
                Key::Move(Move::LineStart),
                Key::Move(Move::LineEnd)
            ]
        )
    );
    assert!(rt;
        give(
            b"\x1B[0000000000A\x1B[9~\x1B[1\x01\xED\xA0\xFFx",
            &[Key::SelectAll, Key::Char('x')]
        )
    );
    Ok(())
}
