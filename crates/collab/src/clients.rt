ghost use Rattle.std.specs.Prelude.{◌≡◌, ◌≢◌, ◌<◌, ◌≤◌, ℕ, length, map, option_and_then, IfOk, IfErr, OnOk, OnErr, Some, None, slice_get};
ghost use Rattle.std.specs.List.{position_from};
ghost use Rattle.std.specs.Str.{bytes_eq};
ghost use Rattle.line_tree.specs.Text.{max_len};
ghost use Rattle.collab.specs.declared.error.CollabError.TheVariants.{NoMemory};
ghost use Rattle.collab.specs.Clients.{CanReceive, ClientView, IsLocal, joined, receive_refusal, received, unseen};
ghost use Rattle.collab.specs.Worlds.{changed_at};
ghost use Rattle.collab.specs.Conditions.{Exists, HasNumber};
ghost use Rattle.collab.specs.Stepping.{after_local, local_refusal, local_set, received_by, receiving_refusal};

use crate::client::Client;
use crate::error::CollabError;
use crate::update::{Update, is_same};
use change_set::Change;
use cm_plain::Str;
use line_tree::Text;
use std::alloc::{AllocError, Global};

/// A client of each name over a text. `Err`: out of memory.
pub(crate) fn joined(alloc: Global, text: &Text, names: Vec<Str>) -> Result<Vec<Client>, AllocError>
    requires { length text.now.characters ≤ max_len }
    ensures { IfOk result (λ clients. clients.items ≡ map (λ name. joined name text.now.characters) names.items) }
{
    let mut clients = Vec::new(alloc);
    for name in names {
        clients.push(Client::new(alloc, name, text.try_copy()?)?)?;
    }
    Ok(clients)
}

/// The place of the first client of a name.
pub(crate) fn place_of(clients: &[Client], name: &Str) -> Option<usize>
    ensures { result ≡ position_from (λ c. bytes_eq name.now c.name) 0 clients.now }
{
    for (index, client) in clients.iter().enumerate() {
        if is_same(name, client.name()) {
            return Some(index);
        }
    }
    None
}

/// Copies of clients.
pub(crate) fn copies_of(alloc: Global, clients: &[Client]) -> Result<Vec<Client>, AllocError>
    ensures { IfOk result (λ all. all.items ≡ clients.now) }
{
    let mut all = Vec::new(alloc);
    for client in clients {
        all.push(client.try_copy()?)?;
    }
    Ok(all)
}

/// A client that exists changes its text.
pub(crate) fn change(
    clients: &mut Vec<Client>,
    index: usize,
    changes: &[Change],
) -> Result<(), CollabError>
    requires exists { index < length clients.old.items }
    requires room { HasNumber (slice_get clients.old.items index) }
    ensures ok { OnOk result (clients.new.items ≡ changed_at index (after_local changes.now) clients.old.items) }
    ensures accepted { OnOk result (option_and_then (local_refusal changes.now) (slice_get clients.old.items index) ≡ None) }
    ensures fits { OnOk result ((c : ClientView) → slice_get clients.old.items index ≡ Some c → IsLocal c (local_set changes.now c)) }
    ensures err { OnErr result (clients.new.items ≡ clients.old.items) }
    ensures refused { IfErr result (λ e. e ≢ NoMemory → option_and_then (local_refusal changes.now) (slice_get clients.old.items index) ≡ Some e) }
{
    let client = &mut clients[index];
    client.local(changes)?;
    Ok(())
}

/// A client that exists receives updates.
pub(crate) fn receive(
    clients: &mut Vec<Client>,
    index: usize,
    from: u32,
    updates: &[Update],
) -> Result<(), CollabError>
    requires exists { index < length clients.old.items }
    requires can { (c : ClientView) → slice_get clients.old.items index ≡ Some c → from ≤ c.version → CanReceive c (unseen c from updates.now) }
    ensures ok { OnOk result (clients.new.items ≡ changed_at index (λ c. received c from updates.now) clients.old.items) }
    ensures accepted { OnOk result (option_and_then (λ c. receive_refusal c from updates.now) (slice_get clients.old.items index) ≡ None) }
    ensures err { OnErr result (clients.new.items ≡ clients.old.items) }
    ensures refused { IfErr result (λ e. e ≢ NoMemory → option_and_then (λ c. receive_refusal c from updates.now) (slice_get clients.old.items index) ≡ Some e) }
{
    let client = &mut clients[index];
    client.receive(from, updates)
}

/// The client that is named, if one is, receives updates.
pub(crate) fn received_by(
    clients: &mut Vec<Client>,
    to: Option<u32>,
    from: u32,
    updates: &[Update],
) -> Result<(), CollabError>
    requires exists { Exists to clients.old.items }
    requires can { (i : ℕ) (c : ClientView) → slice_get clients.old.items i ≡ Some c → from ≤ c.version → CanReceive c (unseen c from updates.now) }
    ensures ok { OnOk result (clients.new.items ≡ received_by to from updates.now clients.old.items) }
    ensures accepted { OnOk result (receiving_refusal to from updates.now clients.old.items ≡ None) }
    ensures err { OnErr result (clients.new.items ≡ clients.old.items) }
    ensures refused { IfErr result (λ e. e ≢ NoMemory → receiving_refusal to from updates.now clients.old.items ≡ Some e) }
{
    match to {
        None => Ok(()),
        Some(index) => receive(clients, index as usize, from, updates),
    }
}
