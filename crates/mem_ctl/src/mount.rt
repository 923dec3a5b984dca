// Mounting and evicting zones.
ghost use Rattle.std.specs.Prelude.{◌≡◌, ◌≤◌, ◌<◌, ◌/◌, ◌%◌, true, false, ℕ, length, OnOk};
ghost use Rattle.std.specs.Fn.{FnReturnsAt};
ghost use Rattle.pl_digest.specs.Nodes.{entry};
ghost use Rattle.mem_geom.specs.Layout.{place_bytes};
ghost use Rattle.mem_slots.specs.Choices.{NamesPosition};
ghost use Rattle.mem_slots.specs.Slots.{is_mounted};
ghost use Rattle.mem_ctl.specs.Mounting.{evicted, mounted_anew, mounted_for, root_check};
ghost use Rattle.mem_ctl.specs.Results.{IsCall, checked_of, outcome_of};

use crate::broken::Broken;
use crate::check::{TOP, check_places, node_over, read_place, write_place};
use crate::ctl::Ctl;
use mem_roots::replace_root;
use mem_slots::SlotUse;
use pl_base::Place;
use pl_digest::{Digester, entry};

impl<D: Digester, F: Fn(&[SlotUse]) -> usize> Ctl<D, F> {
    /// Mounts a zone, where it isn't yet.
    pub(crate) fn mount(&mut self, zone: u8) -> Result<(), Broken>
        requires zone { zone < self.old.0.zones }
        requires choice { NamesPosition F.Fn self.old.1 }
        ensures call { IsCall (FnReturnsAt F.Fn self.old.1) (mounted_for D.digest_of zone) self.old.0 (outcome_of result) self.new.0 }
        ensures mounted { OnOk result (is_mounted self.new.0.mounted zone ≡ true) }
        ensures zones { self.new.0.zones ≡ self.old.0.zones }
        ensures choice { self.new.1 ≡ self.old.1 }
    {
        if self.slots.find(zone).is_some() {
            return Ok(());
        }
        if !self.slots.is_full() {
            return self.mount_anew(zone);
        }
        if let Err(broken) = self.evict() {
            return Err(broken);
        }
        self.mount_anew(zone)
    }

    // Mounts a zone into a free slot.
    fn mount_anew(&mut self, zone: u8) -> Result<(), Broken>
        requires zone { zone < self.old.0.zones }
        requires room { length self.old.0.mounted < self.old.0.slots }
        requires absent { is_mounted self.old.0.mounted zone ≡ false }
        ensures call { IsCall (FnReturnsAt F.Fn self.old.1) (mounted_anew D.digest_of zone) self.old.0 (outcome_of result) self.new.0 }
        ensures mounted { OnOk result (is_mounted self.new.0.mounted zone ≡ true) }
        ensures zones { self.new.0.zones ≡ self.old.0.zones }
        ensures choice { self.new.1 ≡ self.old.1 }
    {
        if let Err(broken) = self.check_root(zone) {
            return Err(broken);
        }
        let root = self.root_entry(zone);
        self.slots.add(zone, root);
        Ok(())
    }

    // Evicts the zone at the position that the choice names.
    fn evict(&mut self) -> Result<(), Broken>
        requires some { 0 < length self.old.0.mounted }
        requires choice { NamesPosition F.Fn self.old.1 }
        ensures call { IsCall (FnReturnsAt F.Fn self.old.1) (evicted D.digest_of) self.old.0 (outcome_of result) self.new.0 }
        ensures zones { self.new.0.zones ≡ self.old.0.zones }
        ensures slots { self.new.0.slots ≡ self.old.0.slots }
        ensures room { OnOk result (length self.new.0.mounted < length self.old.0.mounted) }
        ensures absent { OnOk result ((zone : ℕ) → is_mounted self.old.0.mounted zone ≡ false → is_mounted self.new.0.mounted zone ≡ false) }
        ensures choice { self.new.1 ≡ self.old.1 }
    {
        let position = self.choice.pick(self.slots.list());
        let zone = self.slots.list()[position].zone;
        if let Err(broken) = self.check_root(zone) {
            return Err(broken);
        }
        let (_, root) = self.slots.take_out(position);
        let mut node = [0; 256];
        let mut top = [0; 256];
        read_place(&self.off_chip, self.zones, &node_over(zone), &mut node);
        read_place(&self.off_chip, self.zones, &TOP, &mut top);
        self.root = replace_root::<D>(&mut top, &mut node, zone, &root);
        write_place(&mut self.off_chip, self.zones, &node_over(zone), &node);
        write_place(&mut self.off_chip, self.zones, &TOP, &top);
        write_place(&mut self.mirror, self.zones, &node_over(zone), &node);
        write_place(&mut self.mirror, self.zones, &TOP, &top);
        Ok(())
    }
}

impl<D: Digester, F> Ctl<D, F> {
    // The check of the root table's nodes over a zone.
    fn check_root(&self, zone: u8) -> Result<(), Broken>
        requires zone { zone < self.now.0.zones }
        ensures { checked_of result ≡ root_check D.digest_of self.now.0 zone }
    {
        check_places::<D>(
            self.zones,
            &self.root,
            &self.off_chip,
            &self.mirror,
            &[TOP, node_over(zone)],
        )
    }

    // The zone's entry in the root table.
    fn root_entry(&self, zone: u8) -> [u8; 32]
        requires { zone < self.now.0.zones }
        ensures { result ≡ entry (zone % 8) (place_bytes self.now.0.zones self.now.0.off_chip (Place.RootNode 1 (zone / 8))) }
    {
        let mut node = [0; 256];
        read_place(&self.off_chip, self.zones, &node_over(zone), &mut node);
        entry(&node, u16::from(zone % 8))
    }
}
