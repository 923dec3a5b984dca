// Page walks under way.
use pl_base::{Kind, Mode, Perms, Ppn, Space};

/// In which address space an access is made: its number, the root table of its page tables, and the mode of the access.
#[derive(Clone, Copy, PartialEq, Eq, Debug)]
pub struct View {
    pub space: Space,
    pub root: Ppn,
    pub mode: Mode,
}

/// How far the walk of an address has come.
#[derive(Clone, Copy, PartialEq, Eq, Debug)]
pub enum Walk {
    /// No word is read: it stands at the root table, whose level is 2.
    Start,
    /// It stands at this table, of level 2, 1 or 0.
    Level { level: u8, table: Ppn },
    /// It found the page, and what may be done with it.
    Found { ppn: Ppn, perms: Perms },
}

/// Where an instruction of an enclave is, between two events of its hart.
#[derive(Clone, Copy, PartialEq, Eq, Debug)]
pub enum Micro {
    /// Its word isn't fetched.
    Fetching(Walk),
    /// It is a load or a store with this word, and its data isn't reached.
    Reaching { word: u32, walk: Walk },
    /// No translation serves its access of this kind at this address.
    Faulting { va: u64, kind: Kind },
}

/// No translation serves an access.
#[derive(Clone, Copy, PartialEq, Eq, Debug)]
pub struct PageFault;
