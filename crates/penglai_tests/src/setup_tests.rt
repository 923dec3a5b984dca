// The parts of a setup that was read. Which texts are refused, and by which rule, stands in `rows/`.
use mon_image::Image;
use pl_history::SetupParts;
use std::test::Fail;
use world_setup::read_setup;

// Each form of a line once.
const WHOLE: &str = "version = 1
harts = 2
zones = 3
slots = 4
tables = 5
enclaves = 6
choice = \"least\"
pmp = [\"2 19 200055ff\", \"0012 9f 3fffffffffffff\"]
order = \"h0 a1 x h00000000000000000001\"
attacker = [\"write 80014000 92ff\", \"keep a0 80000000 4096\", \"back a0\", \"after 0 17\"]
[[image]]
entry = \"10004\"
pages = [{ perms = \"rx\", bytes = \"9308\" }, { perms = \"rw\", bytes = \"\" }]
[[hart]]
lines = [
    \"load ff\", \"store 1000 2a\", \"map 1000 7 rw\", \"unmap 10\", \"create 1 0 20,22-24\", \"shadow 2 0 5-5\",
    \"fork 2 3 9,9\", \"grant 3 4294967295\", \"run 00000000000000000005 4294967295\", \"resume 1 2\",
    \"send 1 deadbeef\", \"take 1\", \"destroy 1\", \"drop 1\", \"after 1 0\", \"create 1 0 -\", \"map 0 0 rwx\"]
[[hart]]
lines = []
";

const SHOWN: &str =
    "2 3 4 5 6 Least Listed { items: [(2, Rule { cfg: 25, addr: 536892927 }), (12, Rule { cfg: 159, addr: 18014398509481983 })] } Listed { items: [Hart(HartNo(0)), Ack(HartNo(1)), Attacker, Hart(HartNo(1))] } 10004 Perms(5) 4096 [147, 8, 0] Perms(3) 4096 [0, 0, 0] Listed { items: [Listed { items: [Load { va: Va(255) }, Store { va: Va(4096), word: 42 }, Map { va: Va(4096), page: 7, perms: Perms(3) }, Unmap { va: Va(16) }, Create { e: EncNo(1), image: 0, pages: Listed { items: [20, 22, 23, 24] } }, Shadow { e: EncNo(2), image: 0, pages: Listed { items: [5] } }, Fork { s: EncNo(2), e: EncNo(3), pages: Listed { items: [9, 9] } }, Grant { e: EncNo(3), page: 4294967295 }, Run { e: EncNo(5), budget: 4294967295 }, Resume { e: EncNo(1), budget: 2 }, Send { e: EncNo(1), word: 3735928559 }, Take { e: EncNo(1) }, Destroy { e: EncNo(1) }, Drop { s: EncNo(1) }, After { actor: 1, count: 0 }, Create { e: EncNo(1), image: 0, pages: Listed { items: [] } }, Map { va: Va(0), page: 0, perms: Perms(7) }] }, Listed { items: [] }] } Listed { items: [Write { pa: 2147565568, bytes: Listed { items: [146, 255] } }, Keep { name: Listed { items: [97, 48] }, pa: 2147483648, len: 4096 }, Back { name: Listed { items: [97, 48] } }, After { actor: 0, count: 17 }] }";

// The entry of an image, and each page's permissions, size and first bytes.
fn shown_image(rt: HostRuntime, image: &Image) -> Result<String, Fail> {
    let mut all = format!(in rt.alloc(); " {:x}", image.entry)?;
    for page in image.pages.as_slice() {
        let bytes = page.bytes.as_slice();
        let one = format!(in rt.alloc();
            " {:?} {} {:?}",
            page.perms,
            bytes.len(),
            bytes.split_at(3).0
        )?;
        all.push_str(one.as_str())?;
    }
    Ok(all)
}

fn shown_scripts(rt: HostRuntime, parts: &SetupParts) -> Result<String, Fail> {
    Ok(format!(in rt.alloc(); " {:?} {:?}", parts.lines, parts.attacker)?)
}

fn shown_numbers(rt: HostRuntime, parts: &SetupParts) -> Result<String, Fail> {
    Ok(format!(in rt.alloc();
        "{} {} {} {} {} {:?} {:?} {:?}",
        parts.harts,
        parts.zones,
        parts.slots,
        parts.tables,
        parts.enclaves,
        parts.choice,
        parts.pmp,
        parts.order
    )?)
}

// All parts of a setup.
fn shown_parts(rt: HostRuntime, parts: &SetupParts) -> Result<String, Fail> {
    let mut all = shown_numbers(rt, parts)?;
    for image in parts.images.as_slice() {
        all.push_str(shown_image(rt, image)?.as_str())?;
    }
    all.push_str(shown_scripts(rt, parts)?.as_str())?;
    Ok(all)
}

// All parts of the setup of a text.
fn shown(rt: HostRuntime, text: &str) -> Result<String, Fail> {
    let setup = read_setup(rt.alloc(), text.as_bytes())?;
    shown_parts(rt, setup.parts())
}

#[test]
fn reads_each_part(rt: HostRuntime) -> Result<(), Fail> {
    assert_eq!(rt; shown(rt, WHOLE)?.as_str(), SHOWN);
    Ok(())
}
