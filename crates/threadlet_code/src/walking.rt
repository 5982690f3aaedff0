//! How a walk goes on, and the heights that it finds.

ghost use Rattle.std.specs.Prelude.{◌≡◌, [], ◌∷◌, replicate, slice_set, Some, None, IfOk, ℕ, ◌<◌, ◌≤◌, ◌+◌, ◌-◌, ◌^◌, length, map, slice_get, slice_index, OnOk, IfSome};
ghost use Rattle.word_ops.specs.Formats.{words_in};
ghost use Rattle.threadlet_code.specs.Ways.{heights, known_at};
ghost use Rattle.threadlet_code.specs.Walking.{span_at, arrive, arrive_all, successors_at, pass, pass_many, settle, settle_many, AreFound};

use crate::code::{Code, FuncCode};
use crate::instr::Instr;
use crate::walk::{Span, Walk};
use crate::ways::height_behind;
use std::alloc::{AllocError, Global};
use word_ops::List;

/// The stack heights of a function: for each place the one that goes on from there, and the span of all that
/// come to it; `counts` are the numbers of words of the formats (docs/machine.md, "Rules of code").
pub fn walk_through(
    alloc: Global,
    code: &Code,
    counts: &List<u64>,
    function: usize,
    f: &FuncCode,
) -> Result<Walk, AllocError>
    requires counts { counts.now ≡ map words_in code.now.formats }
    requires short { length f.now.body < 2 ^ 32 }
    requires some { 1 ≤ length f.now.body }
    ensures known { IfOk result (λ walk. walk.known ≡ heights code.now function f.now) }
    ensures ways { IfOk result (λ walk. AreFound code.now function f.now walk.ways) }
{
    let places = f.body.len();
    let mut walk = Walk::start(alloc, places)?;
    for _ in 0..places {
        let from = walk.settled;
        walk.settle();
        walk.spread(from, code, counts, function, f)?;
    }
    Ok(walk)
}

impl Walk {
    /// The walk of no instruction through a body of so many: a way comes to its start.
    fn start(alloc: Global, places: usize) -> Result<Walk, AllocError>
        requires { 1 ≤ places }
        ensures known { IfOk result (λ walk. walk.known ≡ replicate places None) }
        ensures ways { IfOk result (λ walk. walk.ways ≡ slice_set (replicate places None) 0 (Some (record { least = 0; most = 0 }))) }
        ensures reached { IfOk result (λ walk. walk.reached ≡ 0 ∷ []) }
        ensures settled { IfOk result (λ walk. walk.settled ≡ 0) }
    {
        let known = List::from_vec(vec![in alloc; None; places]?);
        let mut ways = List::from_vec(vec![in alloc; None; places]?);
        let _ = ways.set(0, Some(Span { least: 0, most: 0 }));
        let mut reached = List::new(alloc);
        reached.add(0)?;
        Ok(Walk {
            known,
            ways,
            reached,
            settled: 0,
        })
    }

    /// The least height of the ways that came is the height of each place that was reached last.
    fn settle(&mut self)
        requires sizes { length self.old.ways ≡ length self.old.known }
        requires within { (k : ℕ) → k < length self.old.reached → slice_index self.old.reached k < length self.old.known }
        requires settled { self.old.settled ≤ length self.old.reached }
        ensures ways { self.new.ways ≡ self.old.ways }
        ensures reached { self.new.reached ≡ self.old.reached }
        ensures settled { self.new.settled ≡ length self.old.reached }
        ensures known { self.new.known ≡ settle_many (length self.old.reached - self.old.settled) self.old.ways self.old.settled self.old.reached self.old.known }
    {
        for i in self.settled..self.reached.len() {
            let place = *self.reached.at(i);
            self.settle_place(place);
        }
        self.settled = self.reached.len();
    }

    /// The least height of the ways that came to a place, if any did, is its height.
    fn settle_place(&mut self, place: usize)
        requires sizes { length self.old.ways ≡ length self.old.known }
        requires within { place < length self.old.known }
        ensures ways { self.new.ways ≡ self.old.ways }
        ensures reached { self.new.reached ≡ self.old.reached }
        ensures settled { self.new.settled ≡ self.old.settled }
        ensures known { self.new.known ≡ settle place (span_at self.old.ways place) self.old.known }
    {
        if let Some(span) = *self.ways.at(place) {
            let _ = self.known.set(place, Some(span.least));
        }
    }

    /// The ways to the places that got their heights last go on: those from an index on.
    fn spread(
        &mut self,
        from: usize,
        code: &Code,
        counts: &List<u64>,
        function: usize,
        f: &FuncCode,
    ) -> Result<(), AllocError>
        requires counts { counts.now ≡ map words_in code.now.formats }
        requires sizes { length self.old.ways ≡ length f.now.body }
        requires body { length self.old.known ≡ length f.now.body }
        requires within { (k : ℕ) → k < length self.old.reached → slice_index self.old.reached k < length f.now.body }
        requires settled { (from ≤ self.old.settled) × (self.old.settled ≤ length self.old.reached) }
        requires room { (p : ℕ) → IfSome (known_at self.old.known p) (λ height. height + 1 < 2 ^ 32) }
        ensures known { self.new.known ≡ self.old.known }
        ensures settled { self.new.settled ≡ self.old.settled }
        ensures ways { OnOk result (self.new.ways ≡ (pass_many (self.old.settled - from) code.now function f.now self.old.known from self.old.reached
            (record { ways = self.old.ways; reached = self.old.reached })).ways) }
        ensures reached { OnOk result (self.new.reached ≡ (pass_many (self.old.settled - from) code.now function f.now self.old.known from self.old.reached
            (record { ways = self.old.ways; reached = self.old.reached })).reached) }
    {
        for i in from..self.settled {
            let place = *self.reached.at(i);
            self.pass(code, counts, function, f, place)?;
        }
        Ok(())
    }

    /// The way to a place goes on, if there is one.
    fn pass(
        &mut self,
        code: &Code,
        counts: &List<u64>,
        function: usize,
        f: &FuncCode,
        place: usize,
    ) -> Result<(), AllocError>
        requires counts { counts.now ≡ map words_in code.now.formats }
        requires place { place < length f.now.body }
        requires within { place < length self.old.known }
        requires room { IfSome (known_at self.old.known place) (λ height. height + 1 < 2 ^ 32) }
        ensures known { self.new.known ≡ self.old.known }
        ensures settled { self.new.settled ≡ self.old.settled }
        ensures ways { OnOk result (self.new.ways ≡ (pass code.now function f.now place (known_at self.old.known place)
            (record { ways = self.old.ways; reached = self.old.reached })).ways) }
        ensures reached { OnOk result (self.new.reached ≡ (pass code.now function f.now place (known_at self.old.known place)
            (record { ways = self.old.ways; reached = self.old.reached })).reached) }
    {
        match *self.known.at(place) {
            None => Ok(()),
            Some(height) => match height_behind(code, counts, function, f, place, height) {
                None => Ok(()),
                Some(behind) => self.lead(f, place, behind),
            },
        }
    }

    /// A way goes on from the instruction at a place with this height behind it.
    fn lead(&mut self, f: &FuncCode, place: usize, height: u32) -> Result<(), AllocError>
        requires place { place < length f.now.body }
        ensures known { self.new.known ≡ self.old.known }
        ensures settled { self.new.settled ≡ self.old.settled }
        ensures ways { OnOk result (self.new.ways ≡ (arrive_all height (successors_at place (slice_get f.now.body place))
            (record { ways = self.old.ways; reached = self.old.reached })).ways) }
        ensures reached { OnOk result (self.new.reached ≡ (arrive_all height (successors_at place (slice_get f.now.body place))
            (record { ways = self.old.ways; reached = self.old.reached })).reached) }
    {
        let _end = f.body.len();
        match *f.body.at(place) {
            Instr::Jump(to) => self.arrive(to as usize, height),
            Instr::JumpZero(to) => {
                self.arrive(to as usize, height)?;
                self.arrive(place + 1, height)
            }
            Instr::Return => Ok(()),
            _ => self.arrive(place + 1, height),
        }
    }

    /// A way with this height comes to a place, which may lie behind the body.
    fn arrive(&mut self, place: usize, height: u32) -> Result<(), AllocError>
        ensures known { self.new.known ≡ self.old.known }
        ensures settled { self.new.settled ≡ self.old.settled }
        ensures ways { OnOk result (self.new.ways ≡ (arrive height place (record { ways = self.old.ways; reached = self.old.reached })).ways) }
        ensures reached { OnOk result (self.new.reached ≡ (arrive height place (record { ways = self.old.ways; reached = self.old.reached })).reached) }
    {
        if place >= self.ways.len() {
            return Ok(());
        }
        match *self.ways.at(place) {
            None => {
                self.reached.add(place)?;
                let span = Span {
                    least: height,
                    most: height,
                };
                let _ = self.ways.set(place, Some(span));
                Ok(())
            }
            Some(span) => {
                let wider = Span {
                    least: height.min(span.least),
                    most: height.max(span.most),
                };
                let _ = self.ways.set(place, Some(wider));
                Ok(())
            }
        }
    }
}
