// A path whose verdict is known, and the path with another part in its block.
ghost use Rattle.std.specs.Prelude.{◌≡◌, ◌+◌, ◌*◌, ◌/◌, ◌%◌, ◌<◌, List, ℕ};
ghost use Rattle.byteorder.specs.Endian.{little_bytes};
ghost use Rattle.pl_base.specs.Bytes.{with_bytes};
ghost use Rattle.pl_digest.specs.Nodes.{with_entry};
ghost use Rattle.pl_digest.specs.Trees.{zone_root};
ghost use Rattle.mem_tree.specs.Changes.{with_page_part};
ghost use Rattle.mem_tree.specs.Paths.{first_break};
ghost use Rattle.mem_tree.specs.Trees.{IsZone, zone_bytes};
ghost use Rattle.mem_tree.specs.Words.{IsInRange, IsPart, parts_of, taken_path, verdict_of, word_path};

use crate::new_path::NewPath;
use crate::part::block_with_part;
use crate::taken::{Taken, first_break};
use pl_base::Place;
use pl_digest::{Digester, with_digest_of};
use std::marker::Model;

/// What the check of a path says.
#[derive(Clone, Copy, PartialEq, Eq, Debug)]
pub enum Verdict {
    /// The digest of each place is the one held above it.
    Holds,
    /// The first place from the top of which it is not.
    Breaks(Place),
}

/// A path, and the verdict of its check, which was made once.
#[derive(Drop)]
pub struct Sealed<D: Digester> {
    taken: Taken<D>,
    verdict: Verdict,
}

impl<D: Digester> Model for Sealed<D> {
    ghost use Rattle.mem_tree.specs.declared.taken.Taken.{Taken};
    ghost use Rattle.mem_tree.specs.Words.{IsChecked};

    ghost Value = { Taken D };

    ghost view = { λ sealed. sealed.taken };

    ghost invariant = { λ sealed. IsChecked D.digest_of sealed.taken sealed.verdict };
}

impl<D: Digester> Taken<D> {
    /// Checks the path. This computes five digests, or fewer where the path breaks above its block.
    pub fn seal(self) -> Sealed<D>
        requires page { self.page < 4096 }
        requires block { self.block_no < 64 }
        ensures { result ≡ self }
    {
        let verdict = match first_break(&self) {
            None => Verdict::Holds,
            Some(place) => Verdict::Breaks(place),
        };
        Sealed {
            taken: self,
            verdict,
        }
    }
}

impl<D: Digester> Sealed<D> {
    /// The first place from the top that breaks, if one does.
    pub fn verdict(&self) -> Verdict
        ensures { result ≡ verdict_of (first_break D.digest_of (taken_path self.now)) }
    {
        self.verdict
    }

    /// What was taken.
    pub fn taken(&self) -> &Taken<D>
        ensures taken { result.now ≡ self.now }
        ensures in_range { IsInRange self.now }
    {
        &self.taken
    }

    /// The path after a write of the lowest `width` bytes of a value at an offset in the block. This computes five
    /// digests.
    pub fn with_part(&self, offset: u8, width: u8, value: u64) -> NewPath
        requires holds { first_break D.digest_of (taken_path self.now) ≡ None }
        requires part { IsPart offset width }

        // The block has the part, each node the digest of what is new below it, and nothing else changes.
        ensures block { result.block ≡ with_bytes self.now.block offset (little_bytes width value) }
        ensures level1 { result.level1 ≡ with_entry (self.now.block_no % 8) (D.digest_of result.block) self.now.level1 }
        ensures level2 { result.level2 ≡ with_entry (self.now.block_no / 8) (D.digest_of result.level1) self.now.level2 }
        ensures level3 { result.level3 ≡ with_entry (self.now.page % 8) (D.digest_of result.level2) self.now.level3 }
        ensures level4 { result.level4 ≡ with_entry (self.now.page % 64 / 8) (D.digest_of result.level3) self.now.level4 }
        ensures root { result.root ≡ D.digest_of result.level4 }

        // Where the taken path is that of a zone's pages, this is the path of the pages with the part.
        ensures tree { (pages : List (List ℕ)) → IsZone pages
            → parts_of self.now ≡ word_path (zone_root D.digest_of pages) (zone_bytes D.digest_of pages) self.now.page self.now.block_no
            → let now = with_page_part pages (self.now.page % 64) (64 * self.now.block_no + offset) (little_bytes width value)
            in result ≡ word_path (zone_root D.digest_of now) (zone_bytes D.digest_of now) self.now.page self.now.block_no }
    {
        let taken = &self.taken;
        let page = (taken.page % 64) as u16;
        let number = u16::from(taken.block_no);
        let block = block_with_part(&taken.block, offset, width, value);
        let level1 = with_digest_of::<D>(&taken.level1, number % 8, &block);
        let level2 = with_digest_of::<D>(&taken.level2, number / 8, &level1);
        let level3 = with_digest_of::<D>(&taken.level3, page % 8, &level2);
        let level4 = with_digest_of::<D>(&taken.level4, page / 8, &level3);
        let root = D::digest(&level4);
        NewPath {
            block,
            level1,
            level2,
            level3,
            level4,
            root,
        }
    }
}
