//! The forgets of a real kernel.
ghost use Rattle.broker_desk.specs.Forgets.{Forgets, TakesBack};

use crate::Desk;
use broker_core::IssueFault;
use eden_base::Number;
use fuse_wire::{Item, Request};

impl Desk {
    /// Accepts a forget of one `item`, as `issue` does. A forget that is refused as bad or without a mount is never
    /// made again; any other one is to be.
    pub fn forget(&mut self, item: Item) -> Result<(), IssueFault>
        ensures forgets { Forgets self.old item result self.new }
    {
        self.issue(&Request::Forget(item))?;
        Ok(())
    }

    /// Forgets at once the number that a reply has `given` out, since the kernel did not want the reply. One that gave none
    /// out changes nothing.
    pub fn take_back(&mut self, given: Option<Number>) -> Result<(), IssueFault>
        ensures takes_back { TakesBack self.old given result self.new }
    {
        match given {
            Some(node) => self.forget(Item { node, k: 1 }),
            None => Ok(()),
        }
    }
}
