// What a person is told on standard error.
use penglai_main::{Status, rule_text};
use std::io;
use std::io::Eprint;

const USAGE: &str = "usage: penglai COMMAND
  solo < SETUP      runs the setup in the order that it gives, and prints its history and report
  measure < SETUP   prints the measurement of each image
  generate N        runs the generated load with the number N, from 0 to 65535, and prints a summary of its history and the report
The setup is TOML text on standard input; docs/FORMATS.md has its keys, its lines and what is printed.
An example: ./penglai solo < examples/first.toml";

// The rule that a setup fails, and the item at which it fails.
fn tell_rule(rt: &impl Eprint, rule: u8, item: u32) -> io::Result<()> {
    match rule_text(rule) {
        Some(text) if text.counted.is_empty() => {
            eprintln!(rt; "penglai: the setup fails rule {rule}: {}", text.sentence)
        }
        Some(text) => eprintln!(rt;
            "penglai: the setup fails rule {rule} at {} {item}, counted from 0: {}",
            text.counted, text.sentence
        ),
        None => eprintln!(rt; "penglai: the setup fails rule {rule} at item {item}"),
    }
}

/// Tells why a call ended with this status, and nothing where it is done.
pub(crate) fn advise(rt: &impl Eprint, status: Status) -> io::Result<()> {
    match status {
        Status::Done => Ok(()),
        Status::BadWords => eprintln!(rt; "{USAGE}"),
        Status::ReadFault => eprintln!(rt; "penglai: a read from standard input failed"),
        Status::WriteFault => eprintln!(rt; "penglai: a write to standard output failed"),
        Status::NoMemory => eprintln!(rt; "penglai: memory ran out, and nothing was printed"),
        Status::Collision => {
            eprintln!(rt;
                "penglai: two different byte strings with one digest were met, and the run broke off"
            )
        }
        Status::Stuck => {
            eprintln!(rt;
                "penglai: the run is stuck: each actor with lines left waits in an `after`"
            )
        }
        Status::BadSetup { rule, item, cause } => {
            tell_rule(rt, rule, item)?;
            match cause {
                Some(cause) => eprint!(rt; "{cause}"),
                None => Ok(()),
            }
        }
    }
}
