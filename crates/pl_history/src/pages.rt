// How many pages there are.
ghost use Rattle.std.specs.Prelude.{◌≡◌};
ghost use Rattle.pl_history.specs.Rules.{guarded_of, pages_of};

/// The guarded pages, which are the first: two tables of the host, its last-level tables, and three tables for each enclave number.
pub fn guarded_pages(tables: u8, enclaves: u8) -> u32
    ensures { result ≡ guarded_of tables enclaves }
{
    2 + u32::from(tables) + 3 * u32::from(enclaves)
}

/// All pages: 64 of each zone.
pub fn all_pages(zones: u8) -> u32
    ensures { result ≡ pages_of zones }
{
    64 * u32::from(zones)
}
