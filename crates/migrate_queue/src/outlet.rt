ghost use Rattle.std.specs.Prelude.{Option};
ghost use Rattle.migrate_queue.specs.Links.{LinkName};
ghost use Rattle.migrate_queue.specs.Ways.{is_linked, name_to, sent_to, spare_to};

use crate::link_out::LinkOut;
use std::alloc::AllocError;
use threadlet_state::{Outlet, Packet};

/// The outlet of a nodelet whose links are to other nodelets (docs/machine.md, "Links"): at each number
/// the sending end of the link to that nodelet, and none where there is no link, as to the nodelet itself.
#[derive(Drop)]
pub struct LinkOutlet {
    pub links: Vec<Option<LinkOut>>,
}

impl Outlet for LinkOutlet {
    ghost Way = { Option LinkName };

    ghost reaches = { λ outlet to. is_linked outlet to };

    ghost made = { λ outlet to. name_to outlet to };

    ghost sent = { λ outlet to. sent_to outlet to };

    ghost spare = { λ outlet to. spare_to outlet to };

    fn reserve(&mut self, to: u32, more: usize) -> Result<(), AllocError> {
        match &mut self.links[to as usize] {
            Some(link) => link.reserve(more),
            None => unreachable!(),
        }
    }

    fn send(&mut self, to: u32, packet: Packet) {
        match &mut self.links[to as usize] {
            Some(link) => link.send(packet),
            None => unreachable!(),
        }
    }
}
