//! The results of children that have ended, kept until their parent joins them.
#![tactic(auto)]

ghost use Rattle.std.specs.Prelude.{◌≡◌, ◌≢◌, ◌<◌, ◌+◌, ◌-◌, ◌^◌, ℕ, ◌↔◌, map, is_some, IsSome, ◌&&◌, ◌==◌, if◌then◌else◌, IsTrue, OnOk, OnErr, IfOk, Some, None};
ghost use Rattle.std.specs.BTreeMap.{get};
ghost use Rattle.word_ops.specs.Report.{below};
ghost use Rattle.word_ops.specs.Naming.{same_name};
ghost use Rattle.spawn_tree.specs.contracts.ActivationOrd.TheImpl.{ghosts as activations};
ghost use Rattle.word_ops.specs.declared.name.Name.{Name as StrandName};
ghost use Rattle.spawn_tree.specs.code.Fronts.{AreFronts, IsFront, front_at};
ghost use Rattle.spawn_tree.specs.code.Records.{result_in, SameIn, AddsOne, ForgetsUnder as ForgetsIn};

use std::alloc::{AllocError, Global};
use std::collections::BTreeMap;
use word_ops::{List, Name, Ticket};

/// A child: the one that the activation of `parent` at `depth` spawned as number `order`, from 0.
#[derive(Clone, Copy, PartialEq, Eq, PartialOrd, Ord, Debug)]
struct Child {
    parent: Name,
    depth: u32,
    order: u64,
}

/// One of the activations of a strand, by its depth.
#[derive(Clone, Copy, PartialEq, Eq, PartialOrd, Ord, Debug)]
struct Activation {
    parent: Name,
    depth: u32,
}

/// The children of an activation before this number are asked for one by one.
const FEW: u64 = 8;

/// The results of the children that have ended and that no parent has joined yet (docs/machine.md,
/// "Spawn and sync").
#[derive(Debug, Drop)]
pub struct Joins {
    results: BTreeMap<Child, i64>,
    // For an activation with more than a few children: the first from the ninth on whose result is missing. So
    // no end of a child makes its parent look at all the others.
    fronts: BTreeMap<Activation, u64>,
    alloc: Global,
    ghost known: { AreFronts results fronts },
}

impl Joins {
    ghost use Rattle.spawn_tree.specs.Joining.{result_of, AllRecorded, SameRecords, RecordsOneMore, ForgetsUnder};

    /// No child has ended. The records grow on `alloc`.
    pub fn new(alloc: Global) -> Joins
        ensures { (p : StrandName) (d o : ℕ) → result_of result p d o ≡ None }
    {
        Joins {
            results: BTreeMap::new(alloc),
            fronts: BTreeMap::new(alloc),
            alloc,
        }
    }

    /// The result of this child is recorded.
    pub fn has(&self, parent: Name, depth: u32, order: u64) -> bool
        ensures { result ≡ is_some (result_of self.now parent depth order) }
    {
        let child = Child {
            parent,
            depth,
            order,
        };
        self.results.contains_key(&child)
    }

    /// Records `value` as the result of the child with this ticket. Want of memory changes nothing.
    pub fn add(&mut self, t: Ticket, value: i64) -> Result<(), AllocError>
        requires { result_of self.old t.parent t.depth t.order ≡ None }
        ensures ok { OnOk result (RecordsOneMore self.old t value self.new) }
        ensures err { OnErr result (SameRecords self.old self.new) }
    {
        if t.order == self.front(t.parent, t.depth) {
            add_at_front(&mut self.results, &mut self.fronts, t, value)
        } else {
            add_elsewhere(&mut self.results, &self.fronts, t, value)
        }
    }

    /// The results of all children under number `count` are recorded.
    pub fn ready(&self, parent: Name, depth: u32, count: u64) -> bool
        ensures { IsTrue result ↔ AllRecorded self.now parent depth count }
    {
        count <= self.front(parent, depth)
            && (0..count.min(FEW)).all(|order| self.has(parent, depth, order))
    }

    /// The first child of an activation from the ninth on whose result is missing.
    fn front(&self, parent: Name, depth: u32) -> u64
        ensures { result ≡ front_at self.now.fronts parent depth }
    {
        let activation = Activation { parent, depth };
        self.fronts.get(&activation).copied().unwrap_or(FEW)
    }

    /// The results of the children under number `count`, in the order in which they were spawned; their
    /// records go. Want of memory changes nothing.
    pub fn collect(&mut self, parent: Name, depth: u32, count: u64) -> Result<List<i64>, AllocError>
        requires { AllRecorded self.old parent depth count }
        ensures results { IfOk result (λ all. map Some all ≡ map (result_of self.old parent depth) (below count)) }
        ensures ok { OnOk result (ForgetsUnder self.old parent depth count self.new) }
        ensures err { OnErr result (SameRecords self.old self.new) }
    {
        let results = self.results_of(parent, depth, count)?;
        forget(
            &mut self.results,
            &mut self.fronts,
            Activation { parent, depth },
            count,
        );
        Ok(results)
    }

    /// The results of the children under number `count`, in order.
    fn results_of(&self, parent: Name, depth: u32, count: u64) -> Result<List<i64>, AllocError>
        requires { AllRecorded self.now parent depth count }
        ensures { IfOk result (λ all. map Some all ≡ map (result_of self.now parent depth) (below count)) }
    {
        let mut results = Vec::new(self.alloc);
        for order in 0..count {
            let child = Child {
                parent,
                depth,
                order,
            };
            results.push(self.results[&child])?;
        }
        Ok(List::from_vec(results))
    }
}

/// Records a result that is not the first that is missing from the ninth child on.
fn add_elsewhere(
    results: &mut BTreeMap<Child, i64>,
    fronts: &BTreeMap<Activation, u64>,
    t: Ticket,
    value: i64,
) -> Result<(), AllocError>
    requires known { AreFronts results.old fronts.now }
    requires elsewhere { t.order ≢ front_at fronts.now t.parent t.depth }
    ensures ok { OnOk result (AddsOne (result_in results.old) t value (result_in results.new)) }
    ensures err { OnErr result (SameIn (result_in results.old) (result_in results.new)) }
    ensures known { AreFronts results.new fronts.now }
{
    put(results, t, value)
}

/// One result more.
fn put(results: &mut BTreeMap<Child, i64>, t: Ticket, value: i64) -> Result<(), AllocError>
    ensures ok { OnOk result (AddsOne (result_in results.old) t value (result_in results.new)) }
    ensures err { OnErr result (SameIn (result_in results.old) (result_in results.new)) }
{
    let child = Child {
        parent: t.parent,
        depth: t.depth,
        order: t.order,
    };
    results.insert(child, value)?;
    Ok(())
}

/// Records the first result that is missing from the ninth child on: the front goes on behind it.
fn add_at_front(
    results: &mut BTreeMap<Child, i64>,
    fronts: &mut BTreeMap<Activation, u64>,
    t: Ticket,
    value: i64,
) -> Result<(), AllocError>
    requires known { AreFronts results.old fronts.old }
    requires front { t.order ≡ front_at fronts.old t.parent t.depth }
    ensures ok { OnOk result (AddsOne (result_in results.old) t value (result_in results.new)) }
    ensures err { OnErr result (SameIn (result_in results.old) (result_in results.new)) }
    ensures known { AreFronts results.new fronts.new }
{
    let activation = Activation {
        parent: t.parent,
        depth: t.depth,
    };
    let front = first_missing_behind(results, activation, t.order);
    write_down(fronts, activation, t.order)?;
    put(results, t, value)?;
    write(fronts, activation, front);
    Ok(())
}

/// Writes the front of an activation down as it is. Want of memory changes nothing.
fn write_down(
    fronts: &mut BTreeMap<Activation, u64>,
    activation: Activation,
    front: u64,
) -> Result<(), AllocError>
    requires { front ≡ front_at fronts.old activation.parent activation.depth }
    ensures written { OnOk result (IsSome (get activations.cmp fronts.new activation)) }
    ensures same { (p : StrandName) (d : ℕ) → front_at fronts.new p d ≡ front_at fronts.old p d }
{
    fronts.insert(activation, front)?;
    Ok(())
}

/// Another front of an activation that has one written down.
fn write(fronts: &mut BTreeMap<Activation, u64>, activation: Activation, front: u64)
    requires { IsSome (get activations.cmp fronts.old activation) }
    ensures { (p : StrandName) (d : ℕ) → front_at fronts.new p d ≡ (if same_name p activation.parent && d == activation.depth then front else front_at fronts.old p d) }
{
    if let Some(known) = fronts.get_mut(&activation) {
        *known = front;
    }
}

/// The first child of an activation behind a given one whose result is missing, or the last number.
fn first_missing_behind(results: &BTreeMap<Child, i64>, activation: Activation, given: u64) -> u64
    ensures low { given ≢ 2 ^ 64 - 1 → IsFront (result_in results.now activation.parent activation.depth) (given + 1) result }
    ensures last { given ≡ 2 ^ 64 - 1 → result ≡ given }
{
    let mut order = given.saturating_add(1);
    while order < u64::MAX && results.contains_key(&child_in(activation, order)) {
        order += 1;
    }
    order
}

/// The records of the children of an activation under number `count` go.
fn forget(
    results: &mut BTreeMap<Child, i64>,
    fronts: &mut BTreeMap<Activation, u64>,
    activation: Activation,
    count: u64,
)
    requires { AreFronts results.old fronts.old }
    ensures gone { ForgetsIn (result_in results.old) activation.parent activation.depth count (result_in results.new) }
    ensures known { AreFronts results.new fronts.new }
{
    for order in 0..count {
        results.remove(&child_in(activation, order));
    }
    if FEW < count {
        fronts.remove(&activation);
    }
}

/// The child of an activation with a number.
fn child_in(activation: Activation, order: u64) -> Child
    ensures { result ≡ record { parent = activation.parent; depth = activation.depth; order = order } }
{
    Child {
        parent: activation.parent,
        depth: activation.depth,
        order,
    }
}

#[cfg(test)]
mod tests;
