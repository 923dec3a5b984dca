// What the tables walk to. Each law is the contract of a function that does nothing.
ghost use Rattle.mon_tables.specs.SpaceWalks.{ClearsMapping, HostTablesWalk, NumberTablesWalk, PagesHaveNumbers, SetsLeaf, SetsMapping, SpacesStay, StartsEmpty};

/// The host's tables walk to exactly the space that they stand for. They stand for the empty space at the start, and a leaf word that is set
/// or cleared adds or takes away its mapping. A space stays one without a page that is mapped twice.
pub fn host_tables_walk()
    ensures walk { HostTablesWalk }
    ensures start { StartsEmpty }
    ensures set { SetsMapping }
    ensures clear { ClearsMapping }
    ensures spaces { SpacesStay }
    ensures pages { PagesHaveNumbers }
{}

/// The three tables of a number walk to exactly the space of their leaves. A leaf word that is set there takes the place of the one that stood
/// there.
pub fn number_tables_walk()
    ensures walk { NumberTablesWalk }
    ensures set { SetsLeaf }
{}
