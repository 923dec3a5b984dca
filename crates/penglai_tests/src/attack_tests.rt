// One place is attacked after so many turns of a hart: what differs from the run without the attack.
use crate::top_tests::outcome;
use penglai_main::Status;
use std::alloc::Global;
use std::process::Abort;
use std::test::Fail;

// The image stores x2 below the end of its second page, loads it again, and exits with it.
const NUMBERS: &str =
    "version = 1\nharts = 1\nzones = 1\nslots = 1\ntables = 1\nenclaves = 1\nchoice = \"oldest\"\n";

const IMAGE: &str =
    "[[image]]\nentry = \"10000\"\npages = [{ perms = \"rx\", bytes = \"233c21fe033581ff9308100073000000\" }, { perms = \"rw\", bytes = \"\" }]\n";

const HART: &str = "[[hart]]\nlines = [\"create 0 0 20,21\", \"run 0 10\"]\n";

// More than hart 0 has events, so that the last attack comes when it is done.
const TURNS: u32 = 24;

// The setup, where the attacker writes 64 bytes to an address after so many turns of hart 0.
fn attacked_setup(alloc: Global, address: &str, turns: u32) -> Result<String, Fail> {
    let mut text = String::from_str(alloc, NUMBERS)?;
    text.push_str("order = \"")?;
    for _ in 0..turns {
        text.push_str("h0 ")?;
    }
    text.push_str("x\"\nattacker = [\"write ")?;
    text.push_str(address)?;
    text.push_str(" ")?;
    for _ in 0..64 {
        text.push_str("5a")?;
    }
    text.push_str("\"]\n")?;
    text.push_str(IMAGE)?;
    text.push_str(HART)?;
    Ok(text)
}

fn plain_setup(alloc: Global) -> Result<String, Fail> {
    let mut text = String::from_str(alloc, NUMBERS)?;
    text.push_str(IMAGE)?;
    text.push_str(HART)?;
    Ok(text)
}

// What a run of a setup prints; it is done.
fn printed(rt: &impl Abort, alloc: Global, setup: &str) -> Result<String, Fail> {
    let (status, written) = outcome(alloc, "solo", setup, &[], &[])?;
    assert_eq!(rt; status, Status::Done);
    Ok(String::from_utf8(written)?)
}

// The place that the first fault names.
fn fault_in(line: &str) -> Option<&str> {
    match line.split_once("fault ") {
        Some((_, place)) => Some(place),
        None => None,
    }
}

// How a run under attack compares with the one without.
#[derive(Clone, Copy, PartialEq, Eq, Debug)]
enum Compared {
    // All is the same.
    Same,
    // The same up to a first fault, which names the place.
    FaultThere,
    // Anything else.
    Differs,
}

// The lines of both are compared, but for those of the attacker.
fn compare_runs(plain: &str, attacked: &str, place: &str) -> Compared {
    let mut expected = plain.lines();
    for line in attacked.lines() {
        if line.starts_with("x ") {
            continue;
        }
        if let Some(named) = fault_in(line) {
            return if named == place {
                Compared::FaultThere
            } else {
                Compared::Differs
            };
        }
        if expected.next() != Some(line) {
            return Compared::Differs;
        }
    }
    if expected.next().is_some() {
        return Compared::Differs;
    }
    Compared::Same
}

// Whether one of the runs, a turn of hart 0 more before the attack each, answers a fault.
fn is_noticed(rt: &impl Abort, alloc: Global, address: &str, place: &str) -> Result<bool, Fail> {
    let plain = printed(rt, alloc, plain_setup(alloc)?.as_str())?;
    let mut noticed = false;
    for turns in 0..TURNS {
        let attacked = printed(rt, alloc, attacked_setup(alloc, address, turns)?.as_str())?;
        let result = compare_runs(plain.as_str(), attacked.as_str(), place);
        let may_fault = result == Compared::FaultThere && turns + 1 < TURNS;
        assert!(rt;
            may_fault || result == Compared::Same,
            "{address} after {turns} turns"
        );
        noticed = noticed || may_fault;
    }
    Ok(noticed)
}

#[test]
fn a_fault_names_the_attacked_place(rt: HostRuntime) -> Result<(), Fail> {
    let places = [
        ("80014000", "block 20 0"),
        ("80015fc0", "block 21 63"),
        ("8004a000", "node 1 0 160"),
        ("80064800", "node 4 0 0"),
        ("80064900", "root-node 1 0"),
    ];
    for (address, place) in places {
        assert!(rt; is_noticed(&rt, rt.alloc(), address, place)?, "{address}");
    }
    Ok(())
}

#[test]
fn an_attack_on_a_page_that_nobody_reads_changes_no_answer(rt: HostRuntime) -> Result<(), Fail> {
    assert!(rt; !is_noticed(&rt, rt.alloc(), "8001e000", "block 30 0")?);
    Ok(())
}
