// Which cells a cluster takes.
ghost use Rattle.std.specs.Prelude.{true, ◌≡◌, length, chars};
ghost use Rattle.std.specs.Int.{is_in_range};
ghost use Rattle.std.specs.List.{list_all, list_any};
ghost use Rattle.cells.specs.Layout.{is_control, is_tab};

/// Whether the cluster is a tab.
pub(crate) fn is_tab(cluster: &str) -> bool
    ensures value { result ≡ is_tab (chars cluster.now) }
    ensures one { result ≡ true → length cluster.now ≡ 1 }
{
    cluster == "\t"
}

/// Whether the cluster has a control character.
pub(crate) fn has_control(cluster: &str) -> bool
    ensures { result ≡ list_any is_control (chars cluster.now) }
{
    cluster.chars().any(is_control)
}

fn is_control(character: char) -> bool
    ensures { result ≡ is_control character }
{
    character < ' ' || ('\u{7F}'..='\u{9F}').contains(&character)
}

/// Whether the text is printable ASCII, U+0020 to U+007E, of which each character is a cluster of one column.
pub fn is_printable(text: &str) -> bool
    ensures { result ≡ list_all (is_in_range 0x20 0x7E) text.now }
{
    text.bytes().all(is_printable_byte)
}

fn is_printable_byte(byte: u8) -> bool
    ensures { result ≡ is_in_range 0x20 0x7E byte }
{
    (0x20..=0x7E).contains(&byte)
}

/// Whether all characters are printable ASCII, U+0020 to U+007E.
pub fn are_printable(characters: &[char]) -> bool
    ensures { result ≡ list_all (is_in_range 0x20 0x7E) characters.now }
{
    characters.iter().all(|c| (' '..='~').contains(c))
}

/// How many characters the text has.
pub fn char_count(text: &str) -> usize
    ensures { result ≡ length (chars text.now) }
{
    text.chars().count()
}
