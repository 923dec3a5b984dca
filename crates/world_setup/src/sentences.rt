// The rules of a setup in words, for people.
ghost use Rattle.std.specs.Prelude.{◌≤◌, ◌↔◌, IsSome};

/// A rule of a setup in words.
#[derive(Clone, Copy, Debug)]
pub struct RuleText {
    /// What must hold.
    pub sentence: &'static str,
    /// What a refusal's item counts from 0; empty where it is always 0.
    pub counted: &'static str,
}

const IMAGE: &str = "image";

const PAGE: &str = "page (over all images)";

const LINE: &str = "line (over hart 0, hart 1 and so on, then the attacker)";

// A sentence for each rule, the first first, and what its item counts.
const RULES: [(&str, &str); 24] = [
    ("a setup has at most 16 MiB (16,777,216 bytes)", ""),
    ("a setup is TOML text", ""),
    (
        "a table has only keys of a setup: on top `version`, `harts`, `zones`, `slots`, `tables`, `enclaves`, `choice`, `pmp`, `order`, `attacker`, `image`, `hart`; in an image `entry` and `pages`, in a page `perms` and `bytes`, in a hart `lines`; a key below the head `[[image]]` or `[[hart]]` belongs to that table",
        "",
    ),
    ("`version` is the number 1", ""),
    ("`harts` is a number from 1 to 8", ""),
    ("`zones` is a number from 1 to 64", ""),
    ("`slots` is a number from 1 to 64", ""),
    ("`tables` is a number from 1 to 32", ""),
    ("`enclaves` is a number from 1 to 64", ""),
    (
        "pages are left for the pool: 2 + `tables` + 3 times `enclaves` is below 64 times `zones`",
        "",
    ),
    ("`choice` is \"oldest\" or \"least\"", ""),
    (
        "`pmp` is an array of at most 11 strings \"ENTRY CFG ADDRESS\": the entry is a decimal number from 2 to 12, above the one before; the configuration has two digits 0-9 or a-f, the address register 1 to 16, without 0x, and together they are valid",
        "string of `pmp`",
    ),
    (
        "`order` is a string of at most 100,000 words with one space between, each `hN`, `aN` (N the number of a hart) or `x`",
        "word of `order`",
    ),
    ("`image` is an array of at most 64 tables", ""),
    (
        "the image's `entry` is a string of hexadecimal digits 0-9 or a-f, without 0x: a multiple of 4 in the image's pages, of which the first stands at 10000",
        IMAGE,
    ),
    ("the image's `pages` is an array of 1 to 256 tables", IMAGE),
    (
        "the page's `perms` is \"r\", \"rw\", \"rx\" or \"rwx\"",
        PAGE,
    ),
    (
        "the page's `bytes` is a string of an even number of digits 0-9 or a-f, at most 8,192, without 0x",
        PAGE,
    ),
    (
        "`hart` is an array of as many tables as `harts` says, each with an array of strings `lines`",
        "",
    ),
    ("`attacker` is an array of strings", ""),
    ("all harts and the attacker have at most 65,536 lines", ""),
    (
        "the line has a known form: a word and its arguments with one space between; addresses, words and bytes have digits 0-9 or a-f, without 0x, all other numbers are decimal and below 2^32, a list has at most 512 pages",
        LINE,
    ),
    (
        "the line names enclave numbers below `enclaves`, and an image that is there",
        LINE,
    ),
    (
        "the line waits for another actor, and for no more lines than that one has; an attacker's line names bytes of off-chip memory or a name that was kept before; all its lines up to this one have at most 4 MiB (4,194,304 bytes)",
        LINE,
    ),
];

/// The rule of this number in words, where there is one.
pub fn rule_text(rule: u8) -> Option<RuleText>
    ensures { IsSome result ↔ ((1 ≤ rule) × (rule ≤ 24)) }
{
    let (sentence, counted) = *RULES.get(usize::from(rule).wrapping_sub(1))?;
    Some(RuleText { sentence, counted })
}
