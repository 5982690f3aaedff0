//! The events of a core.

use crate::machine::Core;
use merge_law::Event;
use nodelet_core::{Next, Nodelet};
use std::alloc::AllocError;
use threadlet_code::Verified;
use word_ops::{List, Name};

impl Core {
    ghost use Rattle.std.specs.Prelude.{◌≡◌, ◌<◌, ◌++◌, true, slice_get, Some, IfOk, OnOk, OnErr};
    ghost use Rattle.merge_law.specs.Machine.{is_linked};
    ghost use Rattle.merge_law.specs.declared.event.Event.TheVariants as event;
    ghost use Rattle.threadlet_code.specs.declared.code.Code.{Code};
    ghost use Rattle.core_model.specs.Core as core;
    ghost use Rattle.sim_core.specs.Kept.{setup_in, core_in, core_fits};
    ghost use Rattle.sim_core.specs.Advanced.{HasAdvanced, IsUnchanged, IsReached};

    /// Nodelet `k` (docs/machine.md, "The core").
    pub fn node(&self, k: u32) -> &Nodelet
        requires { k < self.now.count }
        ensures { slice_get self.now.nodes.items k ≡ Some result.now }
    {
        &self.nodes[k as usize]
    }

    /// Whether an event can happen now (docs/machine.md, "The core"). Takes no memory.
    pub fn legal(&self, code: &Verified, event: Event) -> bool
        requires fits { core_fits code.now.code self.now ≡ true }
        ensures { result ≡ core.is_legal (setup_in code.now.code self.now) (core_in code.now.code self.now) event }
    {
        match event {
            Event::Run { nodelet, name } => nodelet < self.count
                && self.can_run(code, nodelet, name),
            Event::Take { origin, nodelet } => {
                self.is_link(origin, nodelet) && self.can_take(origin, nodelet)
            }
        }
    }

    /// The context of a name can go on at a nodelet.
    fn can_run(&self, code: &Verified, k: u32, name: Name) -> bool
        requires there { k < self.now.count }
        requires fits { core_fits code.now.code self.now ≡ true }
        ensures { result ≡ core.is_legal (setup_in code.now.code self.now) (core_in code.now.code self.now) (event.Run k name) }
    {
        let nodelet = self.node(k);
        nodelet.stamp() < u64::MAX && nodelet.next(code, name) == Next::Goes
    }

    /// There is a link from one nodelet to another.
    fn is_link(&self, origin: u32, k: u32) -> bool
        ensures { result ≡ is_linked self.now.count origin k }
    {
        origin < self.count && k < self.count && origin != k
    }

    /// A packet can be taken at nodelet `k` from the link from another.
    fn can_take(&self, origin: u32, k: u32) -> bool
        requires linked { is_linked self.now.count origin k ≡ true }
        ensures { (code : Code) → result ≡ core.is_legal (setup_in code self.now) (core_in code self.now) (event.Take origin k) }
    {
        match self.links[origin as usize].first(k) {
            None => false,
            Some(packet) => packet.stamp < u64::MAX && self.node(k).stamp() < u64::MAX,
        }
    }

    /// A legal event happens. Want of memory changes nothing (docs/machine.md, "The core").
    pub fn event(&mut self, code: &Verified, event: Event) -> Result<(), AllocError>
        requires reached { IsReached code.now.code self.old }
        requires fits { core_fits code.now.code self.old ≡ true }
        requires legal { core.is_legal (setup_in code.now.code self.old) (core_in code.now.code self.old) event ≡ true }
        ensures ok { OnOk result (HasAdvanced code.now.code self.old self.new event) }
        ensures reached { IsReached code.now.code self.new }
        ensures fits { core_fits code.now.code self.new ≡ true }
        ensures err { OnErr result (IsUnchanged self.old self.new) }
    {
        match event {
            Event::Run { nodelet, name } => self.run(code, nodelet, name),
            Event::Take { origin, nodelet } => self.take(code, origin, nodelet),
        }
    }

    /// The context of a name goes on at nodelet `k`.
    fn run(&mut self, code: &Verified, k: u32, name: Name) -> Result<(), AllocError>
        requires fits { core_fits code.now.code self.old ≡ true }
        requires legal { core.is_legal (setup_in code.now.code self.old) (core_in code.now.code self.old) (event.Run k name) ≡ true }
        ensures ok { OnOk result (HasAdvanced code.now.code self.old self.new (event.Run k name)) }
        ensures fits { core_fits code.now.code self.new ≡ true }
        ensures err { OnErr result (IsUnchanged self.old self.new) }
    {
        let at = k as usize;
        self.nodes[at].run(code, name, &mut self.links[at])
    }

    /// Nodelet `k` takes the first packet from a nodelet. Want of memory leaves it on its link.
    fn take(&mut self, code: &Verified, origin: u32, k: u32) -> Result<(), AllocError>
        requires reached { IsReached code.now.code self.old }
        requires fits { core_fits code.now.code self.old ≡ true }
        requires legal { core.is_legal (setup_in code.now.code self.old) (core_in code.now.code self.old) (event.Take origin k) ≡ true }
        ensures ok { OnOk result (HasAdvanced code.now.code self.old self.new (event.Take origin k)) }
        ensures fits { core_fits code.now.code self.new ≡ true }
        ensures err { OnErr result (IsUnchanged self.old self.new) }
    {
        let Some(packet) = self.links[origin as usize].take(k) else {
            return Ok(());
        };
        let taken = self.nodes[k as usize].deliver(origin, packet, &mut self.links[k as usize]);
        match taken {
            Ok(()) => Ok(()),
            Err(packet) => {
                self.links[origin as usize].put_back(k, packet);
                Err(AllocError)
            }
        }
    }

    /// The events that can happen now, by nodelet: in each nodelet first its runs by name, then its takes by origin
    /// (docs/machine.md, "The core").
    pub fn legal_events(&self, code: &Verified) -> Result<List<Event>, AllocError>
        requires fits { core_fits code.now.code self.now ≡ true }
        ensures { IfOk result (λ events. events ≡ core.legal_events (setup_in code.now.code self.now) (core_in code.now.code self.now)) }
    {
        let mut events = List::new(self.alloc);
        for k in 0..self.count {
            self.add_runs(&mut events, code, k)?;
            self.add_takes(&mut events, code, k)?;
        }
        Ok(events)
    }

    /// Adds the runs that can happen at a nodelet, by name.
    fn add_runs(&self, events: &mut List<Event>, code: &Verified, k: u32) -> Result<(), AllocError>
        requires there { k < self.now.count }
        requires fits { core_fits code.now.code self.now ≡ true }
        ensures { OnOk result (events.new ≡ events.old ++ core.runs_at (setup_in code.now.code self.now) (core_in code.now.code self.now) k) }
    {
        let names = self.node(k).names();
        for i in 0..names.len() {
            let event = Event::Run {
                nodelet: k,
                name: *names.at(i),
            };
            if self.legal(code, event) {
                events.add(event)?;
            }
        }
        Ok(())
    }

    /// Adds the takes that can happen at a nodelet, by origin.
    fn add_takes(&self, events: &mut List<Event>, code: &Verified, k: u32) -> Result<(), AllocError>
        requires there { k < self.now.count }
        requires fits { core_fits code.now.code self.now ≡ true }
        ensures { OnOk result (events.new ≡ events.old ++ core.takes_at (setup_in code.now.code self.now) (core_in code.now.code self.now) k) }
    {
        for origin in 0..self.count {
            let event = Event::Take { origin, nodelet: k };
            if self.legal(code, event) {
                events.add(event)?;
            }
        }
        Ok(())
    }
}
