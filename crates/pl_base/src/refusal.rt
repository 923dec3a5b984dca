// Why a line is refused.
use crate::number::EncNo;
use crate::place::Place;
use crate::state::State;

/// Why a line is refused. The numbers from 2 to 21 that are printed are the variants' in this order.
#[derive(Clone, Copy, PartialEq, Eq, Debug)]
pub enum No {
    /// 2: the address isn't a multiple of 8.
    Misaligned,
    /// 3: no mapping permits the access.
    PageFault,
    /// 4: physical memory protection bars the access.
    AccessFault,
    /// 5: this place wasn't as its parent has it.
    Fault(Place),
    /// 6: the address isn't that of a page which the host's tables reach.
    BadAddress,
    /// 7: a removal of this address is under way.
    Busy,
    /// 8: the page of this address is mapped.
    Mapped,
    /// 9: this page isn't the host's.
    NotYours(u32),
    /// 10: the page of this address isn't mapped.
    NotMapped,
    /// 11: the enclave number isn't free.
    Exists,
    /// 12: the list hasn't the image's length.
    Count,
    /// 13: this page stands in the list more than once.
    Twice(u32),
    /// 14: this page has mappings.
    StillMapped(u32),
    /// 15: physical memory protection bars a part of this page.
    Barred(u32),
    /// 16: there is no such enclave.
    NoEnclave,
    /// 17: the enclave is in this state.
    WrongState(State),
    /// 18: 4,096 words were sent.
    Full,
    /// 19: all words are taken.
    Empty,
    /// 20: the spares given would pass 256.
    TooMany,
    /// 21: this number was forked from it.
    InUse(EncNo),
}
