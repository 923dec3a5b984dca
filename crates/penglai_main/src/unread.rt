// The setup that a source holds, or why there is none.
ghost use Rattle.std.specs.Prelude.{◌≡◌, None};
ghost use Rattle.pl_io.specs.Puts.{Puts};
ghost use Rattle.penglai_main.specs.Ends.{Later, ends};
ghost use Rattle.penglai_main.specs.Top.{bad_setup_text};
ghost use Rattle.penglai_main.specs.Unread.{Declines, Obtains, Refuses};

use crate::status::Status;
use pl_base::Failed;
use pl_history::Setup;
use pl_io::{Piece, ReadAll, Sink, Source, put_pieces, read_all};
use std::alloc::Global;
use toml::de::Error;
use world_setup::{MOST_TEXT, SetupFault, read_setup};

/// Why no setup was read.
#[derive(Clone, Copy)]
pub(crate) enum Unread {
    Memory,
    ReadFault,
    Bad {
        rule: u8,
        item: u32,
        cause: Option<Error>,
    },
}

// A rule that fails, with nothing from the parser.
fn bad(rule: u8, item: u32) -> Unread
    ensures { result ≡ Unread.Bad rule item None }
{
    Unread::Bad {
        rule,
        item,
        cause: None,
    }
}

/// The setup that the source holds.
pub(crate) fn setup_from<S: Source>(alloc: Global, source: &mut S) -> Result<Setup, Unread>
    ensures obtains { Obtains (ends S.left S.faults source.old source.new) result }
    ensures later { Later (ends S.left S.faults source.old source.new) }
{
    let bytes = match read_all(alloc, source, MOST_TEXT) {
        Ok(bytes) => bytes,
        Err(ReadAll::Memory) => return Err(Unread::Memory),
        Err(ReadAll::ReadFault) => return Err(Unread::ReadFault),
        Err(ReadAll::TooLong) => return Err(bad(1, 0)),
    };
    match read_setup(alloc, &bytes) {
        Ok(setup) => Ok(setup),
        Err(SetupFault::Memory) => Err(Unread::Memory),
        Err(SetupFault::Bad { rule, item }) => Err(bad(rule, item)),
        Err(SetupFault::NotToml(cause)) => Err(Unread::Bad {
            rule: 2,
            item: 0,
            cause: Some(cause),
        }),
    }
}

// Writes the line of a refused setup.
fn put_bad_setup<K: Sink>(sink: &mut K, rule: u8, item: u32) -> Result<(), Failed>
    ensures { Puts (K.written sink.old) (K.written sink.new) (K.faults sink.old) (K.faults sink.new) (bad_setup_text rule item) result }
{
    put_pieces(
        sink,
        &[
            Piece::Text(b"bad setup "),
            Piece::Dec(u64::from(rule)),
            Piece::Text(b" "),
            Piece::Dec(u64::from(item)),
            Piece::Text(b"\n"),
        ],
    )
}

// Says that a setup is refused.
fn refuse<K: Sink>(sink: &mut K, rule: u8, item: u32, cause: Option<Error>) -> Status
    ensures { Refuses (ends K.written K.faults sink.old sink.new) rule item cause result }
{
    match put_bad_setup(sink, rule, item) {
        Ok(()) => Status::BadSetup { rule, item, cause },
        Err(Failed) => Status::WriteFault,
    }
}

/// Ends a call that read no setup.
pub(crate) fn decline<K: Sink>(sink: &mut K, unread: Unread) -> Status
    ensures { Declines (ends K.written K.faults sink.old sink.new) unread result }
{
    match unread {
        Unread::Memory => Status::NoMemory,
        Unread::ReadFault => Status::ReadFault,
        Unread::Bad { rule, item, cause } => refuse(sink, rule, item, cause),
    }
}
