// Whole pages through the trees.
ghost use Rattle.std.specs.Prelude.{◌≡◌, ◌≤◌, ◌<◌, ◌*◌, ◌/◌, true, length, All, IfErr, OnErr, OnOk};
ghost use Rattle.std.specs.Fn.{FnReturnsAt};
ghost use Rattle.mem_geom.specs.Layout.{Exists, memory_size};
ghost use Rattle.mem_geom.specs.Parts.{page_bytes};
ghost use Rattle.mem_geom.specs.PathPlaces.{page_places, replaced_places};
ghost use Rattle.mem_slots.specs.Choices.{NamesPosition};
ghost use Rattle.mem_slots.specs.Slots.{is_mounted};
ghost use Rattle.mem_tree.specs.Checks.{IsTopDown};
ghost use Rattle.mem_ctl.specs.Access.{AllAsWritten, BothChange, BothStay, Leaves};
ghost use Rattle.mem_ctl.specs.Calls.{get_page_of, put_page_of, with_page_at, zone_check};
ghost use Rattle.mem_ctl.specs.Causes.{IsCause};
ghost use Rattle.mem_ctl.specs.Results.{IsCall, checked_of, outcome_of};
ghost use Rattle.mem_ctl.specs.Opened.{IsOpenedZone, IsRefused};
ghost use Rattle.mem_ctl.specs.Pages.{got_outcome, page_place, page_written};
ghost use Rattle.mem_ctl.specs.TreesHold.{IsKept};

use crate::broken::Broken;
use crate::check::{check_places, read_place, write_place};
use crate::ctl::Ctl;
use mem_geom::{Dram, page_start, place_range};
use mem_slots::SlotUse;
use mem_tree::page_nodes;
use pl_base::Place;
use pl_digest::{Digester, set_entry};

impl<D: Digester, F: Fn(&[SlotUse]) -> usize> Ctl<D, F> {
    /// The 4,096 bytes of a page, read through the trees: the nodes of levels 4, 3 and 2, the eight of level 1 and the 64
    /// blocks are checked, in this order.
    pub fn get_page(&mut self, page: u32, into: &mut [u8; 4096]) -> Result<(), Broken>
        requires page { page < 64 * self.old.0.zones }
        requires choice { NamesPosition F.Fn self.old.1 }
        ensures call { IsCall (FnReturnsAt F.Fn self.old.1) (get_page_of D.digest_of page) self.old.0 (got_outcome into.new result) self.new.0 }

        // A page that it gives is the one that was written, and stands off chip too.
        ensures page { OnOk result (into.new ≡ page_bytes self.old.0.mirror page) }
        ensures held { OnOk result (into.new ≡ page_bytes self.old.0.off_chip page) }
        ensures whole { OnOk result (AllAsWritten self.old.0 (page_places page)) }
        ensures stay { BothStay self.old.0 self.new.0 }
        ensures leaves { Leaves D.digest_of self.old.0 self.new.0 }
        ensures cause { IfErr result (IsCause D.digest_of (page_places page) self.new.0) }
        ensures err { OnErr result (into.new ≡ into.old) }
        ensures choice { self.new.1 ≡ self.old.1 }
    {
        let _zones = self.zones;
        if let Err(broken) = self.open_zone(page, &page_places(page)) {
            return Err(broken);
        }
        self.off_chip.read(page_start(page), into);
        Ok(())
    }

    /// Replaces the 4,096 bytes of a page through the trees: the nodes of levels 4 and 3 alone are checked.
    pub fn put_page(&mut self, page: u32, bytes: &[u8; 4096]) -> Result<(), Broken>
        requires page { page < 64 * self.old.0.zones }
        requires choice { NamesPosition F.Fn self.old.1 }
        ensures call { IsCall (FnReturnsAt F.Fn self.old.1) (put_page_of D.digest_of page bytes.now) self.old.0 (outcome_of result) self.new.0 }
        ensures pages { OnOk result (BothChange page (λ _. bytes.now) self.old.0 self.new.0) }
        ensures whole { OnOk result (AllAsWritten self.old.0 (replaced_places page)) }
        ensures stay { OnErr result (BothStay self.old.0 self.new.0) }
        ensures leaves { Leaves D.digest_of self.old.0 self.new.0 }
        ensures cause { IfErr result (IsCause D.digest_of (replaced_places page) self.new.0) }
        ensures choice { self.new.1 ≡ self.old.1 }
    {
        let _zones = self.zones;
        if let Err(broken) = self.open_zone(page, &replaced_places(page)) {
            return Err(broken);
        }
        self.replace(page, bytes);
        Ok(())
    }

    // Mounts the zone of a page, counts a use, and checks a path in it.
    fn open_zone(&mut self, page: u32, places: &[Place]) -> Result<(), Broken>
        requires page { page < 64 * self.old.0.zones }
        requires exist { All (λ p. Exists self.old.0.zones p) places.now }
        requires top_down { IsTopDown places.now }
        requires choice { NamesPosition F.Fn self.old.1 }
        ensures ok { OnOk result (IsOpenedZone (FnReturnsAt F.Fn self.old.1) D.digest_of page places.now self.old.0 self.new.0) }
        ensures err { IfErr result (λ broken. IsRefused (FnReturnsAt F.Fn self.old.1) D.digest_of page places.now self.old.0 broken self.new.0) }
        ensures zones { self.new.0.zones ≡ self.old.0.zones }
        ensures choice { self.new.1 ≡ self.old.1 }
    {
        let _zones = self.zones;
        if let Err(broken) = self.mount((page / 64) as u8) {
            return Err(broken);
        }
        self.count((page / 64) as u8);
        if let Err(broken) = self.check_zone(page, places) {
            return Err(broken);
        }
        Ok(())
    }
}

impl<D: Digester, F> Ctl<D, F> {
    // The check of a path in the mounted zone of a page.
    fn check_zone(&self, page: u32, places: &[Place]) -> Result<(), Broken>
        requires page { page < 64 * self.now.0.zones }
        requires exist { All (λ p. Exists self.now.0.zones p) places.now }
        requires top_down { IsTopDown places.now }
        requires mounted { is_mounted self.now.0.mounted (page / 64) ≡ true }
        ensures { checked_of result ≡ zone_check D.digest_of self.now.0 (page / 64) places.now }
    {
        let root = self.slots.find((page / 64) as u8).unwrap_or([0; 32]);
        check_places::<D>(self.zones, &root, &self.off_chip, &self.mirror, places)
    }
}

impl<D: Digester, F> Ctl<D, F> {
    // Writes a page with the nodes over it off chip and into the mirror, and gives the zone's slot its root.
    fn replace(&mut self, page: u32, bytes: &[u8; 4096])
        requires page { page < 64 * self.old.0.zones }
        requires mounted { is_mounted self.old.0.mounted (page / 64) ≡ true }
        requires kept { IsKept D.digest_of (with_page_at D.digest_of page bytes.now self.old.0) }
        ensures { self.new ≡ (with_page_at D.digest_of page bytes.now self.old.0, self.old.1) }
    {
        let _zones = self.zones;
        let within = (page % 64) as u16;
        let mut level1 = [0; 2048];
        let mut level2 = [0; 256];
        page_nodes::<D>(bytes, &mut level1, &mut level2);
        let places = replaced_places(page);
        let mut level3 = [0; 256];
        read_place(&self.off_chip, self.zones, &places[1], &mut level3);
        let mut level4 = [0; 256];
        read_place(&self.off_chip, self.zones, &places[0], &mut level4);
        set_entry(&mut level3, within % 8, &D::digest(&level2));
        set_entry(&mut level4, within / 8, &D::digest(&level3));
        let nodes = PageNodes {
            level1,
            level2,
            level3,
            level4,
        };
        write_page(&mut self.off_chip, self.zones, page, bytes, &nodes);
        write_page(&mut self.mirror, self.zones, page, bytes, &nodes);
        self.slots.set((page / 64) as u8, D::digest(&level4));
    }
}

// The nodes over a page: the eight of level 1, one after another, and one of each other level.
#[derive(Drop)]
struct PageNodes {
    level1: [u8; 2048],
    level2: [u8; 256],
    level3: [u8; 256],
    level4: [u8; 256],
}

// Writes a page and the nodes over it.
fn write_page(memory: &mut Dram, zones: u8, page: u32, bytes: &[u8; 4096], nodes: &PageNodes)
    requires few { zones ≤ 64 }
    requires page { page < 64 * zones }
    requires size { length memory.old ≡ memory_size zones }
    ensures bytes { memory.new ≡ page_written zones page bytes.now nodes.now.level1 nodes.now.level2 nodes.now.level3 nodes.now.level4 memory.old }
    ensures size { length memory.new ≡ length memory.old }
{
    let zone = (page / 64) as u8;
    let within = (page % 64) as u16;
    let first = Place::Node {
        level: 1,
        zone,
        index: 8 * within,
    };
    let level2 = Place::Node {
        level: 2,
        zone,
        index: within,
    };
    let above = replaced_places(page);
    memory.write(page_start(page), bytes);
    memory.write(place_range(zones, &first).0, &nodes.level1);
    write_place(memory, zones, &level2, &nodes.level2);
    write_place(memory, zones, &above[1], &nodes.level3);
    write_place(memory, zones, &above[0], &nodes.level4);
}

// The places that stay above a page that is replaced.
fn replaced_places(page: u32) -> [Place; 2]
    requires { page < 4096 }
    ensures { result ≡ replaced_places page }
{
    let zone = (page / 64) as u8;
    [
        Place::Node {
            level: 4,
            zone,
            index: 0,
        },
        Place::Node {
            level: 3,
            zone,
            index: (page % 64) as u16 / 8,
        },
    ]
}

// The places of a whole page's path: three nodes, the eight of level 1, and the 64 blocks.
fn page_places(page: u32) -> [Place; 75]
    requires { page < 4096 }
    ensures { result ≡ page_places page }
{
    let mut places = [Place::Block { page, block: 0 }; 75];
    for i in 0..75usize {
        places[i] = page_place(page, i);
    }
    places
}

// The place at a position of it.
fn page_place(page: u32, i: usize) -> Place
    requires page { page < 4096 }
    requires i { i < 75 }
    ensures { result ≡ page_place page i }
{
    let zone = (page / 64) as u8;
    let within = (page % 64) as u16;
    match i {
        0 => Place::Node {
            level: 4,
            zone,
            index: 0,
        },
        1 => Place::Node {
            level: 3,
            zone,
            index: within / 8,
        },
        2 => Place::Node {
            level: 2,
            zone,
            index: within,
        },
        3..=10 => Place::Node {
            level: 1,
            zone,
            index: 8 * within + (i - 3) as u16,
        },
        _ => Place::Block {
            page,
            block: (i - 11) as u8,
        },
    }
}
