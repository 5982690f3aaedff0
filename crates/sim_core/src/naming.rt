//! Whose contexts there are.

ghost use Rattle.std.specs.Prelude.{◌≡◌, ◌++◌, flat_map, option_to_list, IfOk, OnOk};
ghost use Rattle.threadlet_code.specs.declared.code.Code.{Code};
ghost use Rattle.nodelet_core.specs.Kept.{names_at};
ghost use Rattle.core_model.specs.Core as core;
ghost use Rattle.sim_core.specs.Kept.{setup_in, core_in};
ghost use Rattle.sim_core.specs.code.Named.{carried_name, names_on, names_from};

use crate::link::Link;
use crate::machine::Core;
use crate::outgoing::Outgoing;
use nodelet_core::Nodelet;
use std::alloc::AllocError;
use threadlet_state::Body;
use word_ops::{List, Name};

impl Core {
    /// The names of the contexts at all nodelets in order, and then on all links in order (docs/machine.md,
    /// "The core").
    pub fn census(&self) -> Result<List<Name>, AllocError>
        ensures { IfOk result (λ names. (code : Code) → names ≡ core.census (setup_in code self.now) (core_in code self.now)) }
    {
        let mut names = List::new(self.alloc);
        add_standing(&mut names, self.nodes.as_slice())?;
        add_travelling(&mut names, self.links.as_slice())?;
        Ok(names)
    }
}

/// Adds the names of the contexts that stand at nodelets.
fn add_standing(names: &mut List<Name>, nodes: &[Nodelet]) -> Result<(), AllocError>
    ensures { OnOk result (names.new ≡ names.old ++ flat_map names_at nodes.now) }
{
    for nodelet in nodes {
        names.extend_from_slice(nodelet.names().as_slice())?;
    }
    Ok(())
}

/// Adds the names of the strands on the links of nodelets.
fn add_travelling(names: &mut List<Name>, links: &[Outgoing]) -> Result<(), AllocError>
    ensures { OnOk result (names.new ≡ names.old ++ flat_map names_from links.now) }
{
    for outgoing in links {
        add_outgoing(names, outgoing.links.as_slice())?;
    }
    Ok(())
}

/// Adds the names of the strands on links.
fn add_outgoing(names: &mut List<Name>, links: &[Link]) -> Result<(), AllocError>
    ensures { OnOk result (names.new ≡ names.old ++ flat_map names_on links.now) }
{
    for link in links {
        add_link(names, link)?;
    }
    Ok(())
}

/// Adds the names of the strands on a link.
fn add_link(names: &mut List<Name>, link: &Link) -> Result<(), AllocError>
    ensures { OnOk result (names.new ≡ names.old ++ names_on link.now) }
{
    for i in 0..link.queue.len() {
        add_name(names, &link.queue[i].body)?;
    }
    Ok(())
}

/// Adds the name of the strand in a packet, if it carries one.
fn add_name(names: &mut List<Name>, body: &Body) -> Result<(), AllocError>
    ensures { OnOk result (names.new ≡ names.old ++ option_to_list (carried_name body.now)) }
{
    match body {
        Body::Ctx(x) => names.add(x.name),
        _ => Ok(()),
    }
}
