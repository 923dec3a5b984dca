// The words of the generated load, by a plain loop over its lines.
ghost use Rattle.std.specs.Prelude.{◌≤◌};

use pl_history::Line;
use std::alloc::Global;
use std::test::Fail;
use world_setup::generate;

// The exclusive or of the sums that a number sends out for the words that these lines send to it.
fn sums(lines: &[Line], number: u8) -> u64 {
    let mut sum = 0u64;
    let mut all = 0;
    for line in lines {
        if let Line::Send { e, word } = line {
            if e.0 == number {
                sum = sum.wrapping_add(*word);
                all ^= sum;
            }
        }
    }
    all
}

// The same of all numbers of a load.
fn all_sums(alloc: Global, n: u32) -> Result<u64, Fail>
    requires { n ≤ 65535 }
{
    let setup = generate(alloc, n)?;
    let mut all = 0;
    for lines in setup.parts().lines.as_slice() {
        for number in 0..16 {
            all ^= sums(lines.as_slice(), number);
        }
    }
    Ok(all)
}

// The values are those of a Python program, which was written from the rules of the words.
#[test]
fn the_sums_are_those_of_a_plain_program(rt: HostRuntime) -> Result<(), Fail> {
    assert_eq!(rt; all_sums(rt.alloc(), 0)?, 0x0000_0066_63e3_8706);
    assert_eq!(rt; all_sums(rt.alloc(), 1)?, 0x0000_0013_7def_ff93);
    assert_eq!(rt; all_sums(rt.alloc(), 65535)?, 0x0000_001b_f61c_8e12);
    Ok(())
}
