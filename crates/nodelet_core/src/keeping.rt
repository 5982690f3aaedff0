//! What a nodelet keeps, changed in one thing.

ghost use Rattle.std.specs.Prelude.{◌≡◌, ◌<◌, ◌≤◌, ◌+◌, ◌-◌, ℕ, if◌then◌else◌, OnOk, OnErr};
ghost use Rattle.word_ops.specs.Naming.{same_name};
ghost use Rattle.word_ops.specs.declared.name.Name.{Name as StrandName};
ghost use Rattle.world_model.specs.Allocation.{taken_from};
ghost use Rattle.ack_fence.specs.Counting.{count_of};
ghost use Rattle.service.specs.Requests.{IsAtOneOf, taken_by};
ghost use Rattle.nodelet_core.specs.code.Dues.{asked_request};
ghost use Rattle.nodelet_core.specs.code.Doing.{IsServedHere};

use crate::due::Request;
use crate::nodelet::Nodelet;
use ack_fence::Counts;
use core_model::Trapped;
use service::AllocKind;
use std::alloc::AllocError;
use word_ops::{Entry, List, Name, Ticket};

impl Nodelet {
    ghost use Rattle.std.specs.Prelude.{◌≡◌, ◌≤◌, ◌∷◌, [], ◌++◌, map, pos, unwrap_or, IfOk, OnOk, OnErr, Some, None};
    ghost use Rattle.word_ops.specs.Report.{below};
    ghost use Rattle.world_model.specs.Allocation.{taken_from};
    ghost use Rattle.threadlet_code.specs.declared.code.Code.{Code};
    ghost use Rattle.nodelet_mem.specs.Words.{word_of, grant_room};
    ghost use Rattle.spawn_tree.specs.Joining.{result_of, AllRecorded};
    ghost use Rattle.ack_fence.specs.Counting.{count_of};
    ghost use Rattle.nodelet_core.specs.code.Dues.{asked_request};
    ghost use Rattle.core_model.specs.Nodes.{with_word, with_grant, with_issued, with_result, without_results, with_piece, with_trap};
    ghost use Rattle.nodelet_core.specs.Kept.{node_of, IsUnchanged};
    ghost use Rattle.nodelet_core.specs.code.Became.{Did, HasEntered};
    ghost use Rattle.nodelet_core.specs.code.Doing.{with_withdrawn, with_value, address_for, with_cursors, IsServedHere};

    /// The word at an address.
    pub(crate) fn word(&self, address: i64) -> i64
        ensures { result ≡ word_of self.now.words address }
    {
        self.words.load(address)
    }

    /// The word at an address is another. Want of memory changes nothing.
    pub(crate) fn store(&mut self, address: i64, word: i64) -> Result<(), AllocError>
        ensures ok { OnOk result (Did (λ v. with_word v address word) self.old self.new) }
        ensures err { OnErr result (IsUnchanged self.old self.new) }
    {
        self.words.store(address, word)
    }

    /// Words are granted. Want of memory changes nothing, and comes only where there is no room for a grant.
    pub(crate) fn add_grant(&mut self, first: i64, count: u64) -> Result<(), AllocError>
        ensures ok { OnOk result (Did (λ v. with_grant v (record { first = first; count = count })) self.old self.new) }
        ensures err { OnErr result (IsUnchanged self.old self.new) }
        ensures full { OnErr result (grant_room self.old.words ≡ 0) }
    {
        self.words.grant(first, count)
    }

    /// There is room for a grant. Want of memory changes nothing.
    pub(crate) fn reserve_grant(&mut self) -> Result<(), AllocError>
        ensures room { OnOk result (1 ≤ grant_room self.new.words) }
        ensures same { IsUnchanged self.old self.new }
    {
        self.words.reserve_grant()
    }

    /// So many items more of a strand are under way. Want of memory changes nothing.
    pub(crate) fn issue_items(&mut self, name: Name, items: u32) -> Result<(), AllocError>
        ensures ok { OnOk result (Did (λ v. with_issued v name items) self.old self.new) }
        ensures err { OnErr result (IsUnchanged self.old self.new) }
        ensures words { self.new.words ≡ self.old.words }
    {
        issue_all(&mut self.under_way, name, items)
    }

    /// So many items of a strand are no longer under way.
    pub(crate) fn withdraw_items(&mut self, name: Name, items: u32)
        requires { items ≤ count_of self.old.under_way name }
        ensures did { Did (λ v. with_withdrawn v name items) self.old self.new }
        ensures words { self.new.words ≡ self.old.words }
    {
        withdraw_all(&mut self.under_way, name, items);
    }

    /// The result of the child with a ticket is known. Want of memory changes nothing.
    pub(crate) fn keep_result(&mut self, ticket: Ticket, value: i64) -> Result<(), AllocError>
        requires { result_of self.old.joins ticket.parent ticket.depth ticket.order ≡ None }
        ensures ok { OnOk result (Did (λ v. with_result v ticket value) self.old self.new) }
        ensures err { OnErr result (IsUnchanged self.old self.new) }
    {
        self.joins.add(ticket, value)
    }

    /// The results of so many children of an activation, in spawn order, which are no longer here. Want of memory
    /// changes nothing.
    pub(crate) fn take_results(
        &mut self,
        parent: Name,
        depth: u32,
        count: u64,
    ) -> Result<List<i64>, AllocError>
        requires { AllRecorded self.old.joins parent depth count }
        ensures results { IfOk result (λ all. (code : Code) →
            all ≡ map (λ order. unwrap_or ((node_of code self.old).results parent depth order) (pos 0)) (below count)) }
        ensures ok { OnOk result (Did (λ v. without_results v parent depth count) self.old self.new) }
        ensures err { OnErr result (IsUnchanged self.old self.new) }
    {
        self.joins.collect(parent, depth, count)
    }

    /// One more piece of output. Want of memory changes nothing.
    pub(crate) fn keep_piece(&mut self, piece: List<u8>) -> Result<(), AllocError>
        ensures ok { OnOk result (Did (λ v. with_piece v piece) self.old self.new) }
        ensures err { OnErr result (IsUnchanged self.old self.new) }
    {
        match self.services.print(piece) {
            Ok(()) => Ok(()),
            Err(_) => Err(AllocError),
        }
    }

    /// Serves a request for words: the answer is the address of the first, or 0. Takes no memory.
    pub(crate) fn serve(&mut self, request: Request) -> i64
        requires { IsServedHere self.old.nodelets self.old.number request }
        ensures address { (code : Code) → result ≡ address_for (node_of code self.old) (taken_from self.old.nodelets self.old.number (asked_request request)) }
        ensures did { Did (λ v. with_cursors self.old.nodelets v (taken_from self.old.nodelets self.old.number (asked_request request))) self.old self.new }
        ensures words { self.new.words ≡ self.old.words }
    {
        let (kind, blocks, words) = served(request, self.number);
        self.services.serve(kind, blocks, words)
    }

    /// A strand trapped here; only the first is kept.
    pub(crate) fn note_trap(&mut self, trapped: Trapped)
        ensures { Did (λ v. with_trap v trapped) self.old self.new }
    {
        if self.first_trap.is_none() {
            self.first_trap = Some(trapped);
        }
    }

    /// Main has ended here with a value.
    pub(crate) fn keep_value(&mut self, value: i64)
        ensures { Did (λ v. with_value v value) self.old self.new }
    {
        self.main_value = Some(value);
    }

    /// One more entry. Want of memory changes nothing.
    pub(crate) fn enter(&mut self, entry: Entry) -> Result<(), AllocError>
        ensures ok { OnOk result (HasEntered entry self.old self.new) }
        ensures err { OnErr result (IsUnchanged self.old self.new) }
    {
        self.entries.add(entry)
    }

    /// The last entry goes.
    pub(crate) fn withdraw_entry(&mut self)
        ensures { (entry : Entry) (before : Nodelet) → HasEntered entry before self.old → IsUnchanged before self.new }
    {
        let _ = self.entries.pop();
    }
}

/// So many items more of a strand are under way. Want of memory changes nothing.
fn issue_all(counts: &mut Counts, name: Name, items: u32) -> Result<(), AllocError>
    ensures ok { OnOk result ((q : StrandName) → count_of counts.new q ≡ (if same_name q name then count_of counts.old q + items else count_of counts.old q)) }
    ensures err { OnErr result ((q : StrandName) → count_of counts.new q ≡ count_of counts.old q) }
{
    for issued in 0..items {
        if counts.issue(name).is_err() {
            withdraw_all(counts, name, issued);
            return Err(AllocError);
        }
    }
    Ok(())
}

/// So many items of a strand are no longer under way.
fn withdraw_all(counts: &mut Counts, name: Name, items: u32)
    requires { items ≤ count_of counts.old name }
    ensures { (q : StrandName) → count_of counts.new q ≡ (if same_name q name then count_of counts.old q - items else count_of counts.old q) }
{
    for _ in 0..items {
        counts.ack(name);
    }
}

/// A request as the services of nodelet `here` take it: its kind, its blocks and its words.
pub(crate) fn served(request: Request, here: u32) -> (AllocKind, i64, i64)
    ensures kind { (n : ℕ) → here < n → IsAtOneOf n result.0 }
    ensures taken { (n : ℕ) → IsServedHere n here request → taken_by result.0 result.1 result.2 ≡ taken_from n here (asked_request request) }
{
    match request {
        Request::Striped { words } => (AllocKind::Striped, 0, words),
        Request::Blocked { blocks, words } => (AllocKind::Blocked, blocks, words),
        Request::Local { words, .. } => (AllocKind::Local { nodelet: here }, 0, words),
        Request::Replicated { words } => (AllocKind::Replicated, 0, words),
    }
}
