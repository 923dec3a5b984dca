// Places and bytes, at their edges.
ghost use Rattle.std.specs.Prelude.{◌≡◌};
ghost use Rattle.mem_geom.specs.Layout.{Exists};

use crate::threads::sent;
use mem_geom::{Dram, place_range};
use pl_base::Place;
use std::process::Abort;
use std::test::Fail;

fn block(page: u32, block: u8) -> Place
    ensures { result ≡ Place.Block page block }
{
    Place::Block { page, block }
}

fn node(level: u8, zone: u8, index: u16) -> Place
    ensures { result ≡ Place.Node level zone index }
{
    Place::Node { level, zone, index }
}

fn root_node(level: u8, index: u8) -> Place
    ensures { result ≡ Place.RootNode level index }
{
    Place::RootNode { level, index }
}

fn stands(rt: &impl Abort, zones: u8, place: &Place, range: (u64, u32))
    requires { Exists zones place.now }
{
    assert_eq!(rt; place_range(zones, place), range, "{place:?}");
}

#[test]
fn places_stand_where_the_layout_says(rt: HostRuntime) {
    stands(&rt, 1, &block(0, 0), (0x8000_0000, 64));
    stands(&rt, 1, &block(20, 1), (0x8001_4040, 64));
    stands(&rt, 1, &block(63, 63), (0x8003_ffc0, 64));
    stands(&rt, 1, &node(1, 0, 0), (0x8004_0000, 256));
    stands(&rt, 1, &node(1, 0, 511), (0x8005_ff00, 256));
    stands(&rt, 1, &node(2, 0, 0), (0x8006_0000, 256));
    stands(&rt, 1, &node(2, 0, 63), (0x8006_3f00, 256));
    stands(&rt, 1, &node(3, 0, 0), (0x8006_4000, 256));
    stands(&rt, 1, &node(3, 0, 7), (0x8006_4700, 256));
    stands(&rt, 1, &node(4, 0, 0), (0x8006_4800, 256));
    stands(&rt, 1, &root_node(1, 0), (0x8006_4900, 256));
    stands(&rt, 1, &root_node(1, 7), (0x8006_5000, 256));
    stands(&rt, 1, &root_node(2, 0), (0x8006_5100, 256));
}

#[test]
fn places_of_the_last_zone_stand_last(rt: HostRuntime) {
    stands(&rt, 64, &block(4095, 63), (0x80ff_ffc0, 64));
    stands(&rt, 64, &node(1, 0, 0), (0x8100_0000, 256));
    stands(&rt, 64, &node(1, 63, 0), (0x818f_f700, 256));
    stands(&rt, 64, &node(1, 63, 511), (0x8191_f600, 256));
    stands(&rt, 64, &node(2, 63, 63), (0x8192_3600, 256));
    stands(&rt, 64, &node(3, 63, 7), (0x8192_3e00, 256));
    stands(&rt, 64, &node(4, 63, 0), (0x8192_3f00, 256));
    stands(&rt, 64, &root_node(1, 7), (0x8192_4700, 256));
    stands(&rt, 64, &root_node(2, 0), (0x8192_4800, 256));
}

#[test]
fn memory_keeps_what_is_written(rt: HostRuntime) -> Result<(), Fail> {
    // Off-chip memory may go to another thread.
    let mut dram = sent(Dram::new(rt.alloc(), 1)?);
    let last = dram.end() - 4;
    assert_eq!(rt; last, 0x8006_51fc);
    let mut four = [1u8; 4];
    dram.read(0x8000_0000, &mut four);
    assert_eq!(rt; four, [0, 0, 0, 0]);
    dram.write(0x8006_51fd, &[7, 8]);
    dram.write(0x8000_0000, &[9]);
    dram.read(0x8006_51fc, &mut four);
    assert_eq!(rt; four, [0, 7, 8, 0]);
    dram.read(0x8000_0000, &mut four);
    assert_eq!(rt; four, [9, 0, 0, 0]);
    Ok(())
}
