// The owner of each page, and how pages change hands.
ghost use Rattle.std.specs.Prelude.{◌≡◌, ◌<◌, ◌≤◌, ◌==◌, length, slice_get, slice_set, All, IfOk, IsTrue, None, Some};
ghost use Rattle.pl_base.specs.Pages.{first_twice};

use pl_base::{EncNo, Memory};
use std::alloc::Global;
use std::marker::Model;

/// Who owns a page.
#[derive(Clone, Copy, PartialEq, Eq, Debug)]
pub enum Owner {
    /// The monitor, for its tables.
    Guard,
    /// The host; `maps` is how often its space and the open removals name the page.
    Host { maps: u32 },
    /// An enclave number, as one of its own pages or spares.
    Enclave(EncNo),
    /// A shadow's number: the enclaves that are forked from it share the page.
    Shadow(EncNo),
}

/// The owner of each page. Contracts see a list, with the owner of page `p` at place `p`.
#[derive(Debug, Drop)]
pub struct Owners {
    owners: Vec<Owner>,
}

impl Model for Owners {
    ghost use Rattle.std.specs.Prelude.{List};
    ghost use Rattle.mon_owner.specs.declared.owners.Owner.{Owner};

    ghost Value = { List Owner };

    ghost view = { λ o. o.owners.items };
}

impl Owners {
    ghost use Rattle.mon_owner.specs.Owners.{first_owners, given_to, owner_at, may_be_mapped, is_mapped, mapped_once_more, mapped_once_less};

    /// The owners of `pages` pages, of which the first `guard` are guarded; the others are the host's, with no mappings.
    pub fn new(alloc: Global, guard: u32, pages: u32) -> Result<Owners, Memory>
        requires { guard ≤ pages }
        ensures { IfOk result (λ owners. owners ≡ first_owners guard pages) }
    {
        let mut owners = Vec::with_capacity(alloc, pages as usize)?;
        owners.resize(guard as usize, Owner::Guard)?;
        owners.resize(pages as usize, Owner::Host { maps: 0 })?;
        Ok(Owners { owners })
    }

    /// The owner of a page. None exactly past the pool.
    pub fn of(&self, page: u32) -> Option<Owner>
        ensures { result ≡ slice_get self.now page }
    {
        self.owners.get(page as usize).copied()
    }

    /// Gives host pages that no mapping names to an owner. All others stay.
    pub fn take_all(&mut self, pages: &[u32], to: Owner)
        requires distinct { first_twice pages.now ≡ None }
        requires free { All (λ page. slice_get self.old page ≡ Some (Owner.Host 0)) pages.now }
        ensures owners { self.new ≡ given_to self.old pages.now to }
        ensures size { length self.new ≡ length self.old }
    {
        self.set_all(pages, to);
    }

    /// Gives pages back to the host, with no mappings. All others stay.
    pub fn give_all(&mut self, pages: &[u32])
        requires { All (λ page. page < length self.old) pages.now }
        ensures owners { self.new ≡ given_to self.old pages.now (Owner.Host 0) }
        ensures size { length self.new ≡ length self.old }
    {
        self.set_all(pages, Owner::Host { maps: 0 });
    }

    /// Counts one more mapping of a host page, which has fewer than 2^32 - 1.
    pub fn add_map(&mut self, page: u32)
        requires { IsTrue (may_be_mapped (owner_at self.old page)) }
        ensures owners { self.new ≡ slice_set self.old page (mapped_once_more (owner_at self.old page)) }
        ensures size { length self.new ≡ length self.old }
    {
        if let Some(Owner::Host { maps }) = self.of(page) {
            self.owners[page as usize] = Owner::Host { maps: maps + 1 };
        }
    }

    /// Counts one mapping less of a host page, which has some.
    pub fn drop_map(&mut self, page: u32)
        requires { IsTrue (is_mapped (owner_at self.old page)) }
        ensures owners { self.new ≡ slice_set self.old page (mapped_once_less (owner_at self.old page)) }
        ensures size { length self.new ≡ length self.old }
    {
        if let Some(Owner::Host { maps }) = self.of(page) {
            self.owners[page as usize] = Owner::Host { maps: maps - 1 };
        }
    }

    fn set_all(&mut self, pages: &[u32], to: Owner)
        requires { All (λ page. page < length self.old) pages.now }
        ensures owners { self.new ≡ given_to self.old pages.now to }
        ensures size { length self.new ≡ length self.old }
    {
        for page in pages {
            self.owners[*page as usize] = to;
        }
    }
}
