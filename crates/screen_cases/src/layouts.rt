use cells::{cells_of, columns_of};
use std::alloc::{AllocError, Global};
use std::test::Fail;

/// The cells of a text with tabs of 4 columns, each as a letter: `_` for a blank, `>` for a further cell, and the cluster's
/// first character.
fn letters(alloc: Global, text: &str) -> Result<String, AllocError> {
    let cells = cells_of(alloc, text, 4, 0)?;
    let mut letters = String::new(alloc);
    for cell in &cells {
        let letter = match cell.cluster() {
            Some([first, ..]) => *first,
            _ if cell.is_blank() => '_',
            _ => '>',
        };
        letters.push(letter)?;
    }
    Ok(letters)
}

fn shows(alloc: Global, text: &str, want: &str) -> Result<bool, AllocError> {
    Ok(letters(alloc, text)?.as_str() == want)
}

#[test]
fn lays_out_texts(rt: HostRuntime) -> Result<(), Fail> {
    let cases = [
        ("", ""),
        ("a\tb", "a___b"),
        ("abcd\t", "abcd____"),
        ("a漢b", "a漢>b"),
        ("\u{1}\u{7F}\u{85}", "..."),
        ("a\r\nb", "a..b"),
        ("e\u{301}x", "ex"),
        ("\u{200B}x", "x"),
    ];
    for (text, want) in cases {
        assert!(rt; shows(rt.alloc(), text, want)?, "{text}");
    }
    Ok(())
}

#[test]
fn counts_columns(rt: HostRuntime) -> Result<(), Fail> {
    let cases = [
        ("", 0, 0),
        ("a\t", 0, 4),
        ("\t", 3, 1),
        ("a漢", 7, 3),
        ("\u{1}", 0, 1),
    ];
    for (text, start, columns) in cases {
        assert!(rt; columns_of(text, 4, start) == columns, "{text}");
    }
    Ok(())
}
