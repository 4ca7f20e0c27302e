//! Closes transactions, and drops those that open ones no longer reach (Velodrome section 4).

ghost use Rattle.std.specs.Prelude.{◌≡◌, ◌<◌, true, length, OnOk, OnErr};
ghost use Rattle.atom_order.specs.Reaching.{is_among};
ghost use Rattle.atom_order.specs.Shapes.{IsUsable, IsClosing, order_of};
ghost use Rattle.atom_order.specs.Sweeps.{AreGone};

use super::Graph;
use std::alloc::AllocError;

impl Graph {
    /// Closes a live transaction. Those that open ones no longer reach are appended to the dropped ones. Without memory
    /// nothing changes.
    pub fn close(&mut self, transaction: u64) -> Result<(), AllocError>
        requires live { is_among transaction self.old.live ≡ true }
        requires usable { IsUsable self.old }
        ensures ok { OnOk result (IsClosing transaction self.old self.new) }
        ensures err { OnErr result (self.new ≡ self.old) }
    {
        if self.order.has_live_link(transaction) {
            self.is_open[transaction as usize] = false;
            return Ok(());
        }
        match self.order.gone(transaction, self.is_open.as_slice())? {
            Some(gone) => self.close_and_drop(transaction, gone.as_slice()),
            None => self.close_and_drop(transaction, &[transaction]),
        }
    }

    /// Closes a live transaction, and drops those that don't stay live.
    fn close_and_drop(&mut self, transaction: u64, gone: &[u64]) -> Result<(), AllocError>
        requires known { transaction < length self.old.into }
        requires usable { IsUsable self.old }
        requires gone { AreGone transaction (order_of self.old) gone.now }
        ensures ok { OnOk result (IsClosing transaction self.old self.new) }
        ensures err { OnErr result (self.new ≡ self.old) }
    {
        self.dropped.extend_from_slice(gone)?;
        self.is_open[transaction as usize] = false;
        self.order.drop_all(gone);
        Ok(())
    }
}
