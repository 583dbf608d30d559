use collab::Update;

/// An update: the name of its client, which is one character, its number, and the lengths of the text before it and after it.
#[derive(Clone, Copy, Drop)]
pub(crate) struct Row(pub char, pub u32, pub u32, pub u32);

fn is(update: &Update, row: Row) -> bool {
    let name = row.0;
    update.client.chars() == [name].as_slice()
        && update.number == row.1
        && update.changes.len() == row.2
        && update.changes.new_len() == row.3
}

/// Whether updates are as described, in order.
pub(crate) fn are(updates: &[Update], rows: &[Row]) -> bool {
    if updates.len() != rows.len() {
        return false;
    }
    for (index, row) in rows.iter().enumerate() {
        if !is(&updates[index], *row) {
            return false;
        }
    }
    true
}
