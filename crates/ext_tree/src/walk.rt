// A walk that is under way: what it has met and what it has still to do.
ghost use Rattle.std.specs.Prelude.{◌≡◌, ◌<◌, ◌++◌, [], ◌∷◌, map, reverse, length, IfOk, OnOk, IfErr, IfSome, Some, None, true, false};
ghost use Rattle.std.specs.List.{AllByRecursion};
ghost use Rattle.ext_tree.specs.Tree.{IsTree, IsOlder};
ghost use Rattle.ext_tree.specs.Unfolding.{compartment_of, following, stands_on, unfolding_of};
ghost use Rattle.ext_tree.specs.Refusal.{Loop, from_slot, refused_as, refusal, slots_met, refusal_of};
ghost use Rattle.ext_tree.specs.Walking.{enter_below};
ghost use Rattle.ext_tree.specs.Walks.{enter_at, IsWalk, IsMarked, walk_to_do, Continues, IsRefused};
ghost use Rattle.ext_tree.specs.Flat.{leaf, leaves};
ghost use Rattle.ext_tree.specs.Taking.{flat};
ghost use Rattle.ext_tree.specs.Marks.{AreOpen, AreFirsts};
ghost use Rattle.ext_tree.specs.Shared.{is_list_walked, to_walk};
ghost use Rattle.ext_tree.specs.declared.task.Task.TheVariants.{Enter, Leave};

use crate::ext_error::ExtError;
use crate::ext_ids::ExtIds;
use crate::found::Found;
use crate::memo::Memo;
use crate::met_slots::MetSlots;
use crate::node::{ExtId, Node};
use crate::open_slots::OpenSlots;
use crate::precedence::Precedence;
use crate::task::Task;
use crate::tree::Tree;
use crate::visit::Visit;
use crate::walked_lists::WalkedLists;
use std::alloc::{AllocError, Global};

/// A walk that is under way.
#[derive(Drop)]
pub struct Walk {
    pub tasks: Vec<Task>,
    pub slots: OpenSlots,
    pub met: MetSlots,
    pub leaves: Vec<Visit>,
    pub memo: Memo,
    pub lists: WalkedLists,
}

/// Puts nodes to be entered, so that the first is the next.
fn push_all(
    nodes: &[ExtId],
    precedence: Precedence,
    tasks: &mut Vec<Task>,
) -> Result<(), AllocError>
    ensures { OnOk result (tasks.new.items ≡ tasks.old.items ++ reverse (map (enter_at precedence) nodes.now)) }
{
    for place in (0..nodes.len()).rev() {
        tasks.push(Task::Enter(Visit {
            node: nodes[place],
            precedence,
        }))?;
    }
    Ok(())
}

/// Puts what a visited node is followed by, to be entered.
fn push_following(tree: &Tree, visit: Visit, tasks: &mut Vec<Task>) -> Result<(), AllocError>
    ensures { OnOk result (tasks.new.items ≡ tasks.old.items ++ reverse (map (enter_below tree.now visit) (following tree.now visit.node))) }
{
    let precedence = tree.precedence_below(visit);
    match tree.nodes.get(visit.node as usize) {
        Some(Node::Group(nodes)) => push_all(nodes.ids(), precedence, tasks),
        Some(Node::Prec(_, node)) => push_all(&[*node], precedence, tasks),
        Some(
            Node::Slot {
                compartment,
                content,
            },
        ) => {
            let content = tree.contents.get(*compartment).unwrap_or(*content);
            push_all(&[content], precedence, tasks)
        }
        Some(Node::Input(facet)) => push_all(tree.links.enabled(*facet), precedence, tasks),
        Some(Node::Field(field)) | Some(Node::Init(field)) => {
            push_all(tree.links.provided(*field), precedence, tasks)
        }
        // A node that isn't there is followed by nothing; the proof wants it pushed as the others are.
        None => push_all(&[], precedence, tasks),
    }
}

/// Puts what a visited node is followed by, to be entered, unless that is a shared list that was walked.
fn push_unwalked(
    tree: &Tree,
    lists: &WalkedLists,
    visit: Visit,
    tasks: &mut Vec<Task>,
) -> Result<(), AllocError>
    ensures { OnOk result (tasks.new.items ≡ tasks.old.items ++ reverse (map (enter_below tree.now visit) (to_walk (is_list_walked lists.now.facets.walked.items lists.now.fields.walked.items) tree.now visit))) }
{
    if lists.is_walked_after(tree, visit) {
        Ok(())
    } else {
        push_following(tree, visit, tasks)
    }
}

/// The ids of a path with one more at its end.
fn with_last(alloc: Global, nodes: &[ExtId], last: ExtId) -> Result<Vec<ExtId>, AllocError>
    ensures { IfOk result (λ all. all.items ≡ nodes.now ++ last ∷ []) }
{
    let mut all = nodes.to_vec(alloc)?;
    all.push(last)?;
    Ok(all)
}

/// Refuses a slot whose compartment stands on the path.
fn check_loop(
    alloc: Global,
    tree: &Tree,
    slots: &OpenSlots,
    compartment: u32,
    node: ExtId,
) -> Result<(), ExtError>
    requires open { AreOpen tree.now slots.now.path.items slots.now.counts.entries }
    requires slot { compartment_of tree.now node ≡ Some compartment }
    ensures passes { OnOk result (stands_on tree.now slots.now.path.items (Some compartment) ≡ false) }
    ensures refuses { IfErr result (λ error. IfSome (refusal_of error) (λ r. (stands_on tree.now slots.now.path.items (Some compartment) ≡ true) × (r ≡ Loop (from_slot tree.now compartment slots.now.path.items ++ node ∷ [])))) }
{
    if !slots.holds(tree, node) {
        return Ok(());
    }
    match tree.place_on(&slots.path, compartment) {
        Some(place) => {
            let path = with_last(alloc, &slots.path[place..], node)?;
            Err(ExtError::CompartmentLoop {
                path: ExtIds::of(path),
            })
        }
        None => Ok(()),
    }
}

/// Refuses a slot whose compartment stands on the path, or of whose compartment another slot was met.
fn check_slot(
    alloc: Global,
    tree: &Tree,
    slots: &OpenSlots,
    met: &MetSlots,
    node: ExtId,
) -> Result<(), ExtError>
    requires open { AreOpen tree.now slots.now.path.items slots.now.counts.entries }
    requires firsts { AreFirsts tree.now met.now.nodes.items met.now.firsts.entries }
    ensures passes { OnOk result (refused_as tree.now met.now.nodes.items node slots.now.path.items (compartment_of tree.now node) ≡ None) }
    ensures refuses { IfErr result (λ error. IfSome (refusal_of error) (λ r. refused_as tree.now met.now.nodes.items node slots.now.path.items (compartment_of tree.now node) ≡ Some r)) }
{
    let Some(compartment) = tree.compartment_of(node) else {
        return Ok(());
    };
    check_loop(alloc, tree, slots, compartment, node)?;
    match met.first(compartment) {
        Some(first) if first != node => Err(ExtError::DuplicateCompartment {
            compartment,
            first,
            second: node,
        }),
        _ => Ok(()),
    }
}

/// Remembers a leaf at its precedence.
fn note_leaf(tree: &Tree, visit: Visit, leaves: &mut Vec<Visit>) -> Result<(), AllocError>
    ensures { OnOk result (leaves.new.items ≡ leaves.old.items ++ leaf tree.now visit) }
{
    if tree.is_leaf(visit.node) {
        leaves.push(visit)?;
    }
    Ok(())
}

impl Walk {
    /// A walk that has all before it.
    fn start(alloc: Global, tree: &Tree, roots: &[ExtId]) -> Result<Self, AllocError>
        requires { AllByRecursion (IsOlder (length tree.now.nodes)) roots.now }
        ensures walk { IfOk result (λ walk. IsWalk tree.now (unfolding_of tree.now roots.now) (reverse walk.tasks.items) walk) }
        ensures marked { IfOk result (λ walk. IsMarked tree.now walk) }
    {
        let mut tasks = Vec::new(alloc);
        push_all(roots, Precedence::Default, &mut tasks)?;
        Ok(Walk {
            tasks,
            slots: OpenSlots::new(alloc),
            met: MetSlots::new(alloc),
            leaves: Vec::new(alloc),
            memo: Memo::new(alloc, tree.nodes.len())?,
            lists: tree.links.unwalked(alloc)?,
        })
    }

    /// Enters a node, unless it was walked to its end at this precedence.
    fn enter(&mut self, alloc: Global, tree: &Tree, visit: Visit) -> Result<(), ExtError>
        requires tree { IsTree tree.now }
        requires marked { IsMarked tree.now self.old }
        ensures goes_on { OnOk result (Continues tree.now (Enter visit ∷ reverse self.old.tasks.items) self.old self.new) }
        ensures marked { OnOk result (IsMarked tree.now self.new) }
        ensures refuses { IfErr result (λ error. IfSome (refusal_of error) (λ r. IsRefused tree.now (Enter visit ∷ reverse self.old.tasks.items) self.old r)) }
    {
        if self.memo.is_walked(visit) {
            return Ok(());
        }
        check_slot(alloc, tree, &self.slots, &self.met, visit.node)?;
        self.met.meet(tree, visit.node)?;
        self.slots.enter(tree, visit.node)?;
        note_leaf(tree, visit, &mut self.leaves)?;
        self.tasks.push(Task::Leave(visit))?;
        push_unwalked(tree, &self.lists, visit, &mut self.tasks)?;
        Ok(())
    }

    /// Leaves a node, which was walked to its end.
    fn leave(&mut self, tree: &Tree, visit: Visit)
        requires { IsMarked tree.now self.old }
        ensures goes_on { Continues tree.now (Leave visit ∷ reverse self.old.tasks.items) self.old self.new }
        ensures marked { IsMarked tree.now self.new }
    {
        self.memo.mark(visit);
        self.lists.mark_list(tree.list_after(visit));
        self.slots.leave(tree, visit.node);
    }

    /// Does the next task.
    fn step(&mut self, alloc: Global, tree: &Tree, task: Task) -> Result<(), ExtError>
        requires tree { IsTree tree.now }
        requires marked { IsMarked tree.now self.old }
        ensures goes_on { OnOk result (Continues tree.now (task ∷ reverse self.old.tasks.items) self.old self.new) }
        ensures marked { OnOk result (IsMarked tree.now self.new) }
        ensures refuses { IfErr result (λ error. IfSome (refusal_of error) (λ r. IsRefused tree.now (task ∷ reverse self.old.tasks.items) self.old r)) }
    {
        match task {
            Task::Enter(visit) => self.enter(alloc, tree, visit),
            Task::Leave(visit) => {
                self.leave(tree, visit);
                Ok(())
            }
        }
    }
}

/// The leaves in the order of the walk, and the first slot node of each compartment.
pub fn walk_from(alloc: Global, tree: &Tree, roots: &[ExtId]) -> Result<Found, ExtError>
    requires tree { IsTree tree.now }
    requires roots { AllByRecursion (IsOlder (length tree.now.nodes)) roots.now }
    ensures passes { OnOk result (refusal tree.now (unfolding_of tree.now roots.now) ≡ None) }
    ensures leaves { IfOk result (λ found. flat found.leaves.items ≡ flat (leaves tree.now (unfolding_of tree.now roots.now))) }
    ensures slots { IfOk result (λ found. found.slots.items ≡ slots_met tree.now (unfolding_of tree.now roots.now)) }
    ensures refuses { IfErr result (λ error. IfSome (refusal_of error) (λ r. refusal tree.now (unfolding_of tree.now roots.now) ≡ Some r)) }
{
    let mut walk = Walk::start(alloc, tree, roots)?;
    while let Some(task) = walk.tasks.pop() {
        walk.step(alloc, tree, task)?;
    }
    let met = walk.met;
    Ok(Found {
        leaves: walk.leaves,
        slots: met.nodes,
    })
}
