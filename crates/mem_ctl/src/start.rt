// A controller as it is made: page words from a list, all digests over them, and nothing mounted.
ghost use Rattle.std.specs.Prelude.{◌≡◌, ◌≤◌, ◌<◌, ◌*◌, ◌/◌, ◌+◌, ◌-◌, ◌++◌, ◌^◌, length, map, All, IfOk};
ghost use Rattle.std.specs.List.{concat, range_with_len};
ghost use Rattle.pl_base.specs.Bytes.{with_bytes, zero_page};
ghost use Rattle.pl_base.specs.ListedWords.{AreWordsOf};
ghost use Rattle.pl_digest.specs.Trees.{page_root, page_roots, table_root, zone_root};
ghost use Rattle.mem_geom.specs.Layout.{memory_size};
ghost use Rattle.mem_geom.specs.Parts.{page_bytes};
ghost use Rattle.mem_ctl.specs.Known.{AreEachDigest, AreNodesOver, IsKnown, IsTableWritten, IsTopOver};
ghost use Rattle.mem_ctl.specs.Start.{HasWords, level1_nodes, level2_nodes, start_data, table_nodes, zone_entries, zone_nodes};
ghost use Rattle.mem_ctl.specs.Writes.{zone_pages};

use crate::ctl::{Ctl, write_word, zeros};
use mem_geom::{Dram, page_start, place_range};
use mem_slots::{Choice, Slots};
use mem_tree::{digest_pieces, page_nodes};
use pl_base::{Memory, Place};
use pl_digest::{DIGEST_BYTES, Digester};
use std::alloc::Global;

// The nodes of levels 1 and 2 over a page, those of level 1 one after another, and the root of the page.
#[derive(Clone, Copy)]
struct LowerNodes {
    level1: [u8; 2048],
    level2: [u8; 256],
    root: [u8; 32],
}

// The node over eight nodes, and its digest.
#[derive(Clone, Copy)]
struct Top {
    node: [u8; 256],
    root: [u8; 32],
}

// What needs no digest anew: a page with its nodes, and the digests of 64 pages with the node over them.
#[derive(Drop)]
struct Known {
    page: [u8; 4096],
    nodes: LowerNodes,
    digests: [u8; 2048],
    top: Top,
}

impl<D: Digester, F: Drop> Ctl<D, F> {
    /// A controller of 1 to 64 zones and 1 to 64 slots. `start` lists page, offset and word: a page of these zones, an
    /// offset that is a multiple of 8 below 4,096, and no page and offset twice. All other words of pages are zero. Nothing
    /// is mounted. It fails for want of memory alone.
    pub fn new(
        alloc: Global,
        digester: D,
        zones: u8,
        slots: u8,
        start: &[(u32, u16, u64)],
        choice: Choice<F>,
    ) -> Result<Ctl<D, F>, Memory>
        requires zone { 1 ≤ zones }
        requires zones { zones ≤ 64 }
        requires slot { 1 ≤ slots }
        requires slots { slots ≤ 64 }
        requires words { AreWordsOf (64 * zones) start.now }
        ensures start { IfOk result (λ ctl. ctl ≡ (start_data D.digest_of zones slots start.now, choice)) }
        ensures words { IfOk result (λ ctl. HasWords (64 * zones) start.now ctl.0.mirror) }
    {
        let mut off_chip = Dram::new(alloc, zones)?;
        write_words(&mut off_chip, start);
        let root = write_trees::<D>(&mut off_chip, zones);
        let mirror = off_chip.copied(alloc)?;
        Ok(Ctl {
            digester,
            zones,
            off_chip,
            mirror,
            slots: Slots::new(slots),
            root,
            choice,
        })
    }
}

// Writes words into a memory of zeros.
fn write_words(memory: &mut Dram, words: &[(u32, u16, u64)])
    requires zero { All (λ byte. byte ≡ 0) memory.old }
    requires words { AreWordsOf (length memory.old / 4096) words.now }
    ensures words { HasWords (length memory.old / 4096) words.now memory.new }
    ensures size { length memory.new ≡ length memory.old }
{
    for i in 0..words.len() {
        let (page, offset, word) = words[i];
        write_word(memory, page, offset, word);
    }
}

// Writes the nodes over all pages, and the root table. The result is its root.
fn write_trees<D: Digester>(memory: &mut Dram, zones: u8) -> [u8; 32]
    requires few { zones ≤ 64 }
    requires size { length memory.old ≡ memory_size zones }
    ensures bytes { memory.new ≡ with_bytes memory.old (262144 * zones) (concat (map (λ zone. zone_nodes D.digest_of (zone_pages memory.old zone)) (range_with_len 0 zones)) ++ table_nodes D.digest_of (zone_entries D.digest_of zones (zone_pages memory.old))) }
    ensures root { result ≡ table_root D.digest_of (zone_entries D.digest_of zones (zone_pages memory.old)) }
{
    let known = known_zeros::<D>();
    let mut entries = [0; 2048];
    write_zones::<D>(memory, zones, &known, &mut entries);
    write_table::<D>(memory, zones, &entries)
}

// Writes the nodes over all pages, and collects the entries of the root table.
fn write_zones<D: Digester>(memory: &mut Dram, zones: u8, known: &Known, entries: &mut [u8; 2048])
    requires few { zones ≤ 64 }
    requires size { length memory.old ≡ memory_size zones }
    requires known { IsKnown D.digest_of known.now }
    requires zero { All (λ byte. byte ≡ 0) entries.old }
    ensures bytes { memory.new ≡ with_bytes memory.old (262144 * zones) (concat (map (λ zone. zone_nodes D.digest_of (zone_pages memory.old zone)) (range_with_len 0 zones))) }
    ensures size { length memory.new ≡ length memory.old }
    ensures entries { entries.new ≡ concat (zone_entries D.digest_of zones (zone_pages memory.old)) }
{
    for zone in 0..zones {
        let root = write_zone::<D>(memory, zones, zone, known);
        put_bytes(entries, DIGEST_BYTES * usize::from(zone), &root);
    }
}

// Writes the root table with these entries. The result is its root.
fn write_table<D: Digester>(memory: &mut Dram, zones: u8, entries: &[u8; 2048]) -> [u8; 32]
    requires few { zones ≤ 64 }
    requires size { length memory.old ≡ memory_size zones }
    ensures { IsTableWritten D.digest_of zones entries.now memory.old memory.new result }
{
    let (start, _) = place_range(zones, &Place::RootNode { level: 1, index: 0 });
    let top = top_over::<D>(entries);
    memory.write(start, entries);
    memory.write(start + 2048, &top.node);
    top.root
}

// Writes the nodes over a zone's pages. The result is its root.
fn write_zone<D: Digester>(memory: &mut Dram, zones: u8, zone: u8, known: &Known) -> [u8; 32]
    requires few { zones ≤ 64 }
    requires zone { zone < zones }
    requires size { length memory.old ≡ memory_size zones }
    requires known { IsKnown D.digest_of known.now }
    ensures bytes { memory.new ≡ with_bytes memory.old (262144 * zones + 149760 * zone) (zone_nodes D.digest_of (zone_pages memory.old zone)) }
    ensures size { length memory.new ≡ length memory.old }
    ensures root { result ≡ zone_root D.digest_of (zone_pages memory.old zone) }
{
    let first = Place::Node {
        level: 1,
        zone,
        index: 0,
    };
    let (start, _) = place_range(zones, &first);
    let mut level2 = [0; 16384];
    let mut digests = [0; 2048];
    write_level1::<D>(memory, start, zone, known, &mut level2, &mut digests);
    let top = known_top::<D>(&digests, known);
    memory.write(start + 131_072, &level2);
    memory.write(start + 147_456, &digests);
    memory.write(start + 149_504, &top.node);
    top.root
}

// Writes the nodes of level 1 over a zone's pages from an address behind them on, and collects those of level 2 and the
// roots of the pages.
fn write_level1<D: Digester>(
    memory: &mut Dram,
    start: u64,
    zone: u8,
    known: &Known,
    level2: &mut [u8; 16384],
    roots: &mut [u8; 2048],
)
    requires zone { zone < 64 }
    requires behind { 0x80000000 + 262144 * (zone + 1) ≤ start }
    requires inside { start + 131072 ≤ 0x80000000 + length memory.old }
    requires small { start < 2 ^ 63 }
    requires known { IsKnown D.digest_of known.now }
    ensures bytes { memory.new ≡ with_bytes memory.old (start - 0x80000000) (level1_nodes D.digest_of (zone_pages memory.old zone)) }
    ensures size { length memory.new ≡ length memory.old }
    ensures level2 { level2.new ≡ level2_nodes D.digest_of (zone_pages memory.old zone) }
    ensures roots { roots.new ≡ concat (page_roots D.digest_of (zone_pages memory.old zone)) }
{
    for k in 0..64usize {
        let page = 64 * u32::from(zone) + k as u32;
        let nodes = known_nodes::<D>(memory, page, known);
        memory.write(start + 2048 * k as u64, &nodes.level1);
        put_bytes(level2, 256 * k, &nodes.level2);
        put_bytes(roots, DIGEST_BYTES * k, &nodes.root);
    }
}

// The nodes over a page of a memory.
fn known_nodes<D: Digester>(memory: &Dram, page: u32, known: &Known) -> LowerNodes
    requires inside { 4096 * page + 4096 ≤ length memory.now }
    requires known { IsKnown D.digest_of known.now }
    ensures { AreNodesOver D.digest_of (page_bytes memory.now page) result }
{
    if memory.holds(page_start(page), &known.page) {
        return known.nodes;
    }
    let mut bytes = [0; 4096];
    memory.read(page_start(page), &mut bytes);
    nodes_over::<D>(&bytes)
}

// The node over eight nodes with the digests of 64 pages.
fn known_top<D: Digester>(digests: &[u8; 2048], known: &Known) -> Top
    requires { IsKnown D.digest_of known.now }
    ensures { IsTopOver D.digest_of digests.now result }
{
    if *digests == known.digests {
        return known.top;
    }
    top_over::<D>(digests)
}

// A page of zeros, and a zone of such pages.
fn known_zeros<D: Digester>() -> Known
    ensures known { IsKnown D.digest_of result }
    ensures page { result.page ≡ zero_page }
    ensures zone { AreEachDigest (page_root D.digest_of zero_page) result.digests }
{
    let page = zeros();
    let nodes = nodes_over::<D>(&page);
    let mut digests = [0; 2048];
    repeat_digest(&mut digests, &nodes.root);
    let top = top_over::<D>(&digests);
    Known {
        page,
        nodes,
        digests,
        top,
    }
}

// Fills a list with one digest.
fn repeat_digest(digests: &mut [u8; 2048], digest: &[u8; 32])
    ensures { AreEachDigest digest.now digests.new }
{
    for k in 0..64usize {
        put_bytes(digests, DIGEST_BYTES * k, digest);
    }
}

fn nodes_over<D: Digester>(page: &[u8; 4096]) -> LowerNodes
    ensures { AreNodesOver D.digest_of page.now result }
{
    let mut level1 = [0; 2048];
    let mut level2 = [0; 256];
    page_nodes::<D>(page, &mut level1, &mut level2);
    let root = D::digest(&level2);
    LowerNodes {
        level1,
        level2,
        root,
    }
}

fn top_over<D: Digester>(digests: &[u8; 2048]) -> Top
    ensures { IsTopOver D.digest_of digests.now result }
{
    let mut node = [0; 256];
    digest_pieces::<D>(digests, 256, 8, &mut node);
    let root = D::digest(&node);
    Top { node, root }
}

// Puts bytes into others, from a place on.
fn put_bytes(all: &mut [u8], at: usize, bytes: &[u8])
    requires { at + length bytes.now ≤ length all.old }
    ensures bytes { all.new ≡ with_bytes all.old at bytes.now }
    ensures size { length all.new ≡ length all.old }
{
    all[at..at + bytes.len()].copy_from_slice(bytes);
}
